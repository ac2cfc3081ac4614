// Occurs, of document 02's F-3: every choice of so many or more of a phrase's finds. The choices are counted first. Those of one size are numbered,
// and each is written from its number alone, as a not's are.

#![tactic(auto)]

mod choices; // the choices, written
mod counts; // how many choices there are, and how large the list is

ghost use Rattle.std.specs.Prelude.{map, ◌≤◌, length};
ghost use Rattle.model.specs.Rules.{at_least, from_to_times};
ghost use Rattle.store.specs.Indices.{SlotBelow};
ghost use Rattle.store.specs.Outcome.{Outcome};
ghost use Rattle.occurs.specs.Finds.{find, FindsAt};
ghost use Rattle.occurs.specs.WithNot.{at_least_with_not, excess_of};
ghost use Rattle.occurs.specs.Writing.{ExcessAt};

use counts::Excess;
use store::Built;

// Every choice of a or more of the finds in the slot at src, joined with every match of the not, in the slot at `at` above them.
fn at_least_with_not(mem: &mut [u32], src: usize, a: u32, excess: Excess, at: usize) -> Built
    requires excess_at { ExcessAt mem.old src (excess_of excess) }
    requires slot_below { SlotBelow (length mem.old) src at }
    ensures { (w : ExcessAt mem.old src (excess_of excess))
        → Outcome (at_least_with_not a (excess_of excess) w.finds) mem.old mem.new at result }
{
    let m = store::size_at(mem, src).matches;
    let counts = counts::count_choices(m, a)?;
    let size = counts.size_with_not(m, excess)?;
    choices::put_sizes(mem, src, excess, a, counts.fewest, at + store::FIRST_MATCH);
    store::put_slot_header(mem, at, size);
    Ok(size)
}

// "At least a: every choice of a or more of the phrase's matches, fewest first, equal sizes in order of first difference by position, each choice
// joined as and would."
pub fn at_least_list(mem: &mut [u32], src: usize, a: u32, at: usize) -> Built
    requires finds_at { FindsAt mem.old src }
    requires slot_below { SlotBelow (length mem.old) src at }
    ensures { (w : FindsAt mem.old src)
        → Outcome (at_least a (map find w.finds)) mem.old mem.new at result }
{
    at_least_with_not(mem, src, a, Excess::No, at)
}

// "From a to b: at least a, and not at least b + 1."
pub fn from_to_list(mem: &mut [u32], src: usize, a: u32, b: u32, at: usize) -> Built
    requires finds_at { FindsAt mem.old src }
    requires slot_below { SlotBelow (length mem.old) src at }
    requires a_le_b { a ≤ b }
    ensures { (w : FindsAt mem.old src)
        → Outcome (from_to_times a b (map find w.finds)) mem.old mem.new at result }
{
    let m = store::size_at(mem, src).matches;
    let excess = Excess::of(m, b)?;
    at_least_with_not(mem, src, a, excess, at)
}
