// One code's list, built from the lists that wait in the slots from 0 on. It takes the slot of the first list that it is made of.
ghost use Rattle.std.specs.Prelude.{map, ◌≡◌, ℕ, ◌≤◌, length};
ghost use Rattle.model.specs.declared.Filter.TheVariants.{Window};
ghost use Rattle.model.specs.declared.Times.TheVariants.{FromTo};
ghost use Rattle.model.specs.Accepted.{AcceptedFamilies, AcceptedSection, max_phrases};
ghost use Rattle.model.specs.AllMatches.{filter_list, occurs_list, pair_list};
ghost use Rattle.model.specs.Families.{searched_of};
ghost use Rattle.model.specs.Kinds.{shape_of};
ghost use Rattle.model.specs.Limits.{max_waiting};
ghost use Rattle.model.specs.Rules.{and_list, mild_not_list, not_list, or_list, phrase_list};
ghost use Rattle.model.specs.Section.{section_of};
ghost use Rattle.store.specs.Layout.{scratch};
ghost use Rattle.store.specs.Outcome.{Outcome};
ghost use Rattle.store.specs.Indices.{SlotBelow};
ghost use Rattle.store.specs.Slot.{SlotAt};
ghost use Rattle.window.specs.Inside.{WindowSize};
ghost use Rattle.occurs.specs.Finds.{find, FindsAt};
ghost use Rattle.build.specs.State.{AfterCode, WaitsAt};
ghost use Rattle.build.specs.Steps.{Pushed, InScratch, NoneTaken, OneTaken, FindsTaken, TwoTaken};

use model::{Code, Filter, Inputs, Pair, Times};
use store::{Built, Size};

// Copies a list that was built in the slot for that down to `at`, unless it is too long.
fn move_from_scratch(mem: &mut [u32], built: Built, at: usize) -> Built
    requires { InScratch mem.old at built }
    ensures { (w : InScratch mem.old at built) → Pushed w.list w.rest mem.new result }
{
    let size = built?;
    store::copy_slot_down(mem, store::SCRATCH, at);
    Ok(size)
}

// A phrase's list, after those that wait.
fn build_phrase(inputs: &Inputs, words: &[u32], rank: u32, mem: &mut [u32], lists: usize) -> Built
    requires accepted_section { AcceptedSection inputs.now.section.now }
    requires accepted_families { AcceptedFamilies inputs.now.families.now }
    requires words_len_bound { length words.now ≤ max_waiting }
    requires rank_le_max_phrases { rank ≤ max_phrases }
    requires none_taken { NoneTaken (phrase_list (searched_of inputs.now.section.now inputs.now.families.now) rank words.now) mem.old lists }
    ensures { (w : NoneTaken (phrase_list (searched_of inputs.now.section.now inputs.now.families.now) rank words.now) mem.old lists)
        → Pushed (phrase_list (searched_of inputs.now.section.now inputs.now.families.now) rank words.now) w.rest mem.new result }
{
    phrase::phrase_list(
        inputs.section,
        inputs.families,
        words,
        rank,
        mem,
        lists * store::SLOT,
    )
}

// Or, of the last two lists.
fn build_or(mem: &mut [u32], lists: usize) -> Built
    requires { TwoTaken or_list mem.old lists }
    ensures { (w : TwoTaken or_list mem.old lists) → Pushed (or_list w.lefts w.rights) w.rest mem.new result }
{
    or_and::or::or_list(mem, (lists - 2) * store::SLOT, (lists - 1) * store::SLOT)
}

// And, of the last two lists. (It and mild not stay apart, as do not, filter and occurs: one function over a closure would say the rule's contract again.)
fn build_and(mem: &mut [u32], lists: usize) -> Built
    requires { TwoTaken and_list mem.old lists }
    ensures { (w : TwoTaken and_list mem.old lists) → Pushed (and_list w.lefts w.rights) w.rest mem.new result }
{
    let l = (lists - 2) * store::SLOT;
    let r = (lists - 1) * store::SLOT;
    let built = or_and::and::and_list(mem, l, r, store::SCRATCH);
    move_from_scratch(mem, built, l)
}

// Mild not, of the last two lists.
fn build_mild_not(mem: &mut [u32], lists: usize) -> Built
    requires { TwoTaken mild_not_list mem.old lists }
    ensures { (w : TwoTaken mild_not_list mem.old lists) → Pushed (mild_not_list w.lefts w.rights) w.rest mem.new result }
{
    let l = (lists - 2) * store::SLOT;
    let r = (lists - 1) * store::SLOT;
    let built = mild_not::mild_not_list(mem, l, r, store::SCRATCH);
    move_from_scratch(mem, built, l)
}

// A combination, of the last two lists.
fn build_pair(pair: Pair, mem: &mut [u32], lists: usize) -> Built
    requires { TwoTaken (pair_list pair) mem.old lists }
    ensures { (w : TwoTaken (pair_list pair) mem.old lists) → Pushed (pair_list pair w.lefts w.rights) w.rest mem.new result }
{
    match pair {
        Pair::Or => build_or(mem, lists),
        Pair::And => build_and(mem, lists),
        Pair::MildNot => build_mild_not(mem, lists),
    }
}

// Not, of the last list.
fn build_not(mem: &mut [u32], lists: usize) -> Built
    requires { OneTaken not_list mem.old lists }
    ensures { (w : OneTaken not_list mem.old lists) → Pushed (not_list w.list) w.rest mem.new result }
{
    let src = (lists - 1) * store::SLOT;
    let built = negation::not_list(mem, src, store::SCRATCH);
    move_from_scratch(mem, built, src)
}

// A filter, of the last list.
fn build_filter(section: &[u32], filter: Filter, mem: &mut [u32], lists: usize) -> Built
    requires by_index { (n : ℕ) → filter ≡ Window n → WindowSize n }
    requires one_taken { OneTaken (filter_list (section_of section.now) filter) mem.old lists }
    ensures { (w : OneTaken (filter_list (section_of section.now) filter) mem.old lists)
        → Pushed (filter_list (section_of section.now) filter w.list) w.rest mem.new result }
{
    let src = (lists - 1) * store::SLOT;
    let built = filters::filter_list(section, filter, mem, src, store::SCRATCH);
    move_from_scratch(mem, built, src)
}

// What an occurs makes of the finds in the slot at src, in the slot to build in.
fn occurring(times: Times, mem: &mut [u32], src: usize) -> Built
    requires by_index { (a b : ℕ) → times ≡ FromTo a b → a ≤ b }
    requires finds_at { FindsAt mem.old src }
    requires slot_below { SlotBelow (length mem.old) src scratch }
    ensures { (w : FindsAt mem.old src)
        → Outcome (occurs_list times (map find w.finds)) mem.old mem.new scratch result }
{
    match times {
        Times::FromTo { least, most } => {
            occurs::from_to_list(mem, src, least, most, store::SCRATCH)
        }
        Times::AtLeast(least) => occurs::at_least_list(mem, src, least, store::SCRATCH),
    }
}

// An occurs, of the last list, which is a phrase's.
fn build_occurs(times: Times, mem: &mut [u32], lists: usize) -> Built
    requires by_index { (a b : ℕ) → times ≡ FromTo a b → a ≤ b }
    requires finds_taken { FindsTaken (occurs_list times) mem.old lists }
    ensures { (w : FindsTaken (occurs_list times) mem.old lists)
        → Pushed (occurs_list times w.taken.list) w.taken.rest mem.new result }
{
    let src = (lists - 1) * store::SLOT;
    let built = occurring(times, mem, src);
    move_from_scratch(mem, built, src)
}

// The list of the code at a place, from the lists that wait before it. A word has none.
pub fn build_code(
    inputs: &Inputs,
    code: Code,
    place: u32,
    rank: u32,
    mem: &mut [u32],
    lists: usize,
) -> Built
    requires { WaitsAt inputs.now.section.now inputs.now.families.now inputs.now.selection.now mem.old code place rank lists }
    ensures { (w : WaitsAt inputs.now.section.now inputs.now.families.now inputs.now.selection.now mem.old code place rank lists)
        → AfterCode (searched_of inputs.now.section.now inputs.now.families.now) (shape_of code) w.state place mem.new result }
{
    match code {
        Code::Word(_) => Ok(Size {
            matches: 0,
            strings: 0,
        }),
        Code::Phrase(_) => {
            let words = selection::parts::phrase_words(inputs.selection, place);
            build_phrase(inputs, words, rank, mem, lists)
        }
        Code::Combine(pair) => build_pair(pair, mem, lists),
        Code::Not => build_not(mem, lists),
        Code::Filter(filter) => build_filter(inputs.section, filter, mem, lists),
        Code::Occurs(times) => build_occurs(times, mem, lists),
    }
}
