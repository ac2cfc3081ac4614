// Or: "L's matches, then R's."
ghost use Rattle.std.specs.Prelude.{◌+◌, ◌≤◌};
ghost use Rattle.model.specs.Rules.{or_list};
ghost use Rattle.store.specs.Layout.{slot_size};
ghost use Rattle.store.specs.Outcome.{Outcome};
ghost use Rattle.store.specs.Slot.{TwoSlots};

use store::Built;

// Puts the matches of the list in the slot at r after those of the list in the slot at l below it.
pub fn or_list(mem: &mut [u32], l: usize, r: usize) -> Built
    requires two_slots { TwoSlots mem.old l r }
    requires slot_size_bound { l + slot_size ≤ r }
    ensures { (w : TwoSlots mem.old l r) → Outcome (or_list w.lefts w.rights) mem.old mem.new l result }
{
    let left = store::size_at(mem, l);
    let right = store::size_at(mem, r);
    let size = store::sized(left.matches + right.matches, left.strings + right.strings)?;
    let to = store::slot_end(mem, l);
    let end = store::slot_end(mem, r);
    mem.copy_within(r + store::FIRST_MATCH..end, to);
    store::put_slot_header(mem, l, size);
    Ok(size)
}
