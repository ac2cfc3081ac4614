// Mild not: "L's matches in which, for every match of R, some position covered by an include isn't covered by R's includes."

#![tactic(auto)]

mod keeps;
mod uncovered;

ghost use Rattle.std.specs.Prelude.{length};
ghost use Rattle.model.specs.Rules.{mild_not_list};
ghost use Rattle.store.specs.Outcome.{Outcome};
ghost use Rattle.store.specs.Indices.{SlotBelow};
ghost use Rattle.store.specs.Slot.{TwoSlots};

use keeps::is_kept;
use store::Built;

// The mild not of the lists in two slots, in a slot above them.
pub fn mild_not_list(mem: &mut [u32], l: usize, r: usize, at: usize) -> Built
    requires two_slots { TwoSlots mem.old l r }
    requires slot_below { SlotBelow (length mem.old) l at }
    requires slot_below_2 { SlotBelow (length mem.old) r at }
    ensures { (w : TwoSlots mem.old l r) → Outcome (mild_not_list w.lefts w.rights) mem.old mem.new at result }
{
    let n = store::size_at(mem, l).matches;
    let mut left = l + store::FIRST_MATCH;
    let mut q = at + store::FIRST_MATCH;
    let mut matches = 0;
    let mut known = None;
    // not by store::each_match: what is known of R goes on from match to match, and those kept are counted
    for i in 0..n {
        let end = store::match_end(mem, left);
        if is_kept(mem, left, (n - i) as usize, r, &mut known) {
            store::copy_up(mem, left..end, q);
            q += end - left;
            matches += 1;
        }
        left = end;
    }
    Ok(store::close_slot(mem, at, q, matches))
}
