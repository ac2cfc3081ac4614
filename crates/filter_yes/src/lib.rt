// Whether what a filter gives has a match without excludes: told match by match, and nothing of the filter's own list is written.

#![tactic(auto)]

mod kept; // the filters that keep a match or drop it
mod windows; // the windows around a match, and those that no exclude is inside

ghost use Rattle.std.specs.Prelude.{List, ℕ, ◌≡◌};
ghost use Rattle.model.specs.declared.Filter.TheVariants.{Window};
ghost use Rattle.model.specs.Lists.{any_of};
ghost use Rattle.model.specs.Matches.{Match, is_yes};
ghost use Rattle.model.specs.Section.{section_of};
ghost use Rattle.model.specs.Walk.{gives_yes};
ghost use Rattle.store.specs.Slot.{SlotAt};
ghost use Rattle.window.specs.Inside.{WindowSize};
ghost use Rattle.filter_yes.specs.Gives.{match_at};

use distance::Distances;
use filter_rules::{AtPosition, Different, EntireContent, Ordered, Same};
use kept::Kept;
use model::{Filter, Paragraph, Sentence};
use windows::Windows;

// A filter that is asked of one match after the other.
pub trait Asked: Copy {
    // what it gives of a match
    ghost gives: { Self → Match → List Match };

    // Does it give a match without excludes of the match with these includes and excludes?
    fn gives_yes(self, includes: &[u32], excludes: &[u32]) -> bool
        ensures { result ≡ is_yes (gives self (match_at includes.now excludes.now)) };
}

// "take the operand's matches one by one and stop at the first that gives a match without excludes": of the list in the slot at src
fn any_yes<A: Asked>(asked: A, mem: &[u32], src: usize) -> bool
    requires { SlotAt mem.now src }
    ensures { (w : SlotAt mem.now src) → result ≡ any_of (λ m. is_yes (A.gives asked m)) w.list }
{
    store::matches_of(mem, src).any(|m| asked.gives_yes(m.includes, m.excludes))
}

// The same, by the filter of a code. As in `filters::filter_list`, each arm names the type by which its filter tests, so that each loop is compiled for one.
pub fn is_yes(section: &[u32], filter: Filter, mem: &[u32], src: usize) -> bool
    requires by_index { (n : ℕ) → filter ≡ Window n → WindowSize n }
    requires slot_at { SlotAt mem.now src }
    ensures { (w : SlotAt mem.now src) → result ≡ any_of (gives_yes (section_of section.now) filter) w.list }
{
    match filter {
        Filter::Ordered => any_yes(Kept(Ordered), mem, src),
        Filter::Window(n) => any_yes(Windows { n }, mem, src),
        Filter::Distance { least, most } => any_yes(Kept(Distances { least, most }), mem, src),
        Filter::SameSentence => any_yes(Kept(Same::<Sentence>::new(section)), mem, src),
        Filter::SameParagraph => any_yes(Kept(Same::<Paragraph>::new(section)), mem, src),
        Filter::DifferentSentence => any_yes(Kept(Different::<Sentence>::new(section)), mem, src),
        Filter::DifferentParagraph => any_yes(Kept(Different::<Paragraph>::new(section)), mem, src),
        Filter::AtStart => any_yes(Kept(AtPosition::start(section)), mem, src),
        Filter::AtEnd => any_yes(Kept(AtPosition::end(section)), mem, src),
        Filter::EntireContent => any_yes(Kept(EntireContent { section }), mem, src),
    }
}
