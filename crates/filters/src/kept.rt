// The lists of the filters that keep a match or drop it: one loop over a list's matches and one writer for all of them.
ghost use mathlib.Core.List.{flat_map};
ghost use Rattle.std.specs.Prelude.{length};
ghost use Rattle.model.specs.Rules.{kept};
ghost use Rattle.store.specs.Outcome.{Outcome};
ghost use Rattle.store.specs.Indices.{SlotBelow};
ghost use Rattle.store.specs.Slot.{SlotAt};

use super::writing::put_filtered;
use filter_rules::Keeper;
use store::Built;

// Builds the list that a filter which keeps a match or drops it gives of the list in the slot at src.
pub fn kept_list<K: Keeper>(keeper: K, mem: &mut [u32], src: usize, at: usize) -> Built
    requires slot_at { SlotAt mem.old src }
    requires slot_below { SlotBelow (length mem.old) src at }
    ensures { (w : SlotAt mem.old src) → Outcome (flat_map (kept (K.keeping keeper)) w.list) mem.old mem.new at result }
{
    // a loop of its own: the matches kept are counted, which `store::each_match` doesn't
    let n = store::size_at(mem, src).matches;
    let mut from = src + store::FIRST_MATCH;
    let mut q = at + store::FIRST_MATCH;
    let mut matches = 0;
    for _ in 0..n {
        let end = store::match_end(mem, from);
        let next = put_filtered(keeper, mem, from, q);
        matches = store::count_one(matches, q, next);
        q = next;
        from = end;
    }
    Ok(store::close_slot(mem, at, q, matches))
}
