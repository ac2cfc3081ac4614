// And: "for each of L, for each of R, includes joined left then right, excludes likewise."
ghost use Rattle.std.specs.Prelude.{◌++◌, map, ◌≡◌, ◌-◌, drop, length, take};
ghost use Rattle.model.specs.Rules.{and_list, joined};
ghost use Rattle.store.specs.Built.{built_of};
ghost use Rattle.store.specs.Layout.{match_numbers, matches_numbers};
ghost use Rattle.store.specs.Outcome.{Outcome};
ghost use Rattle.store.specs.Indices.{SlotBelow};
ghost use Rattle.store.specs.Put.{Put};
ghost use Rattle.store.specs.Slot.{TwoSlots};
ghost use Rattle.or_and.specs.Joining.{CopyBoth, JoinableAt, RowAt};

use std::ops::Range;
use store::{Built, FIRST_MATCH};

// Copies the numbers of a range, and after them those of another, to an index above both; like the functions below it gives the index after.
fn copy_both(mem: &mut [u32], left: Range<usize>, right: Range<usize>, to: usize) -> usize
    requires { CopyBoth (length mem.old) left.start left.end right.start right.end to }
    ensures { Put mem.old mem.new to (take (left.end - left.start) (drop left.start mem.old) ++ take (right.end - right.start) (drop right.start mem.old)) result }
{
    let middle = to + (left.end - left.start);
    let end = middle + (right.end - right.start);
    store::copy_up(mem, left, to);
    store::copy_up(mem, right, middle);
    end
}

// "includes joined left then right, excludes likewise": puts the matches at `left` and `right` as one at q.
fn put_joined(mem: &mut [u32], left: usize, right: usize, q: usize) -> usize
    requires { JoinableAt mem.old left right q }
    ensures { (w : JoinableAt mem.old left right q) → Put mem.old mem.new q (match_numbers (joined w.left w.right)) result }
{
    let l = store::bounds_at(mem, left);
    let r = store::bounds_at(mem, right);
    let includes = q + store::FIRST_STRING;
    let excludes = copy_both(
        mem,
        l.includes..l.excludes,
        r.includes..r.excludes,
        includes,
    );
    let end = copy_both(mem, l.excludes..l.end, r.excludes..r.end, excludes);
    store::close_match(mem, q, excludes, end);
    end
}

// "for each of R": puts the match at `left` joined with each of the n matches from `first` on.
fn put_row(mem: &mut [u32], left: usize, first: usize, n: u32, at: usize) -> usize
    requires { RowAt mem.old left first n at }
    ensures { (w : RowAt mem.old left first n at) → Put mem.old mem.new at (matches_numbers (map (joined w.left) w.rights)) result }
{
    store::each_match(mem, first, n, at, |mem, right, q| {
        put_joined(mem, left, right, q)
    })
}

// The size of the product of the lists in the slots at l and r.
fn and_size(mem: &[u32], l: usize, r: usize) -> Built
    requires { TwoSlots mem.now l r }
    ensures { (w : TwoSlots mem.now l r) → result ≡ built_of (and_list w.lefts w.rights) }
{
    let left = store::size_at(mem, l);
    let right = store::size_at(mem, r);
    store::sized(
        left.matches * right.matches,
        right.matches * left.strings + left.matches * right.strings,
    )
}

// "for each of L": the product of the lists in the slots at l and r, in the slot at `at` above them.
pub fn and_list(mem: &mut [u32], l: usize, r: usize, at: usize) -> Built
    requires two_slots { TwoSlots mem.old l r }
    requires slot_below { SlotBelow (length mem.old) l at }
    requires slot_below_2 { SlotBelow (length mem.old) r at }
    ensures { (w : TwoSlots mem.old l r) → Outcome (and_list w.lefts w.rights) mem.old mem.new at result }
{
    let size = and_size(mem, l, r)?;
    let m = store::size_at(mem, l).matches;
    let n = store::size_at(mem, r).matches;
    store::each_match(mem, l + FIRST_MATCH, m, at + FIRST_MATCH, |mem, left, q| {
        put_row(mem, left, r + FIRST_MATCH, n, q)
    });
    store::put_slot_header(mem, at, size);
    Ok(size)
}
