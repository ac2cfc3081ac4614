// The list that a filter gives of a list: window's by its own rule, and those of the filters that keep a match or drop it by another, for all of them.

#![tactic(auto)]

mod kept;
mod writing;

ghost use Rattle.std.specs.Prelude.{length, ℕ, ◌≡◌};
ghost use Rattle.model.specs.declared.Filter.TheVariants.{Window};
ghost use Rattle.model.specs.AllMatches.{filter_list};
ghost use Rattle.model.specs.Section.{section_of};
ghost use Rattle.store.specs.Outcome.{Outcome};
ghost use Rattle.store.specs.Indices.{SlotBelow};
ghost use Rattle.store.specs.Slot.{SlotAt};
ghost use Rattle.window.specs.Inside.{WindowSize};

use distance::Distances;
use filter_rules::{AtPosition, Different, EntireContent, Ordered, Same};
use kept::kept_list;
use model::{Filter, Paragraph, Sentence};
use store::Built;
use window::window_list;

// Builds the list that a filter gives of the list in the slot at src.
#[tactic(auto, unfolding(model::specs::AllMatches::filter_list))]
pub fn filter_list(section: &[u32], filter: Filter, mem: &mut [u32], src: usize, at: usize) -> Built
    requires by_index { (n : ℕ) → filter ≡ Window n → WindowSize n }
    requires slot_at { SlotAt mem.old src }
    requires slot_below { SlotBelow (length mem.old) src at }
    ensures { (w : SlotAt mem.old src) → Outcome (filter_list (section_of section.now) filter w.list) mem.old mem.new at result }
{
    match filter {
        Filter::Ordered => kept_list(Ordered, mem, src, at),
        Filter::Window(n) => window_list(mem, n, src, at),
        Filter::Distance { least, most } => kept_list(Distances { least, most }, mem, src, at),
        Filter::SameSentence => kept_list(Same::<Sentence>::new(section), mem, src, at),
        Filter::SameParagraph => kept_list(Same::<Paragraph>::new(section), mem, src, at),
        Filter::DifferentSentence => kept_list(Different::<Sentence>::new(section), mem, src, at),
        Filter::DifferentParagraph => kept_list(Different::<Paragraph>::new(section), mem, src, at),
        Filter::AtStart => kept_list(AtPosition::start(section), mem, src, at),
        Filter::AtEnd => kept_list(AtPosition::end(section), mem, src, at),
        Filter::EntireContent => kept_list(EntireContent { section }, mem, src, at),
    }
}
