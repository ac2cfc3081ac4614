// A list in its slot: a header, how many matches and strings it has, then its matches.
ghost use Rattle.std.specs.Prelude.{cond, [], ◌∷◌, ◌≡◌, ◌+◌, ◌≤◌, ltb, length};
ghost use Rattle.std.proofs.lemmas.List.Edits.{sets};
ghost use Rattle.model.specs.Limits.{max_matches};
ghost use Rattle.store.specs.Indices.{Closing};
ghost use Rattle.store.specs.Layout.{matches_at, slot_length, slot_numbers, slot_size, strings_at};
ghost use Rattle.store.specs.Outcome.{Closed};
ghost use Rattle.store.specs.Slot.{SlotHeader, SlotAt};

use super::{FIRST_MATCH, Size};

// The size of the list in a slot, by its header.
pub fn size_at(mem: &[u32], at: usize) -> Size
    requires { SlotHeader mem.now at }
    ensures matches { result.matches ≡ matches_at mem.now at }
    ensures strings { result.strings ≡ strings_at mem.now at }
{
    Size {
        matches: mem[at],
        strings: mem[at + 1],
    }
}

// The index after the list in a slot, by its header.
pub fn slot_end(mem: &[u32], at: usize) -> usize
    requires { SlotHeader mem.now at }
    ensures { result ≡ at + slot_length mem.now at }
{
    let size = size_at(mem, at);
    at + FIRST_MATCH + size.matches as usize + 2 * size.strings as usize
}

// Copies the list in a slot to a slot below it.
pub fn copy_slot_down(mem: &mut [u32], from: usize, to: usize)
    requires slot_at { SlotAt mem.old from }
    requires slot_size_bound { to + slot_size ≤ from }
    ensures { (w : SlotAt mem.old from) → mem.new ≡ sets mem.old to (slot_numbers w.list) }
{
    let end = slot_end(mem, from);
    mem.copy_within(from..end, to);
}

// Puts the two numbers of a slot's header.
pub fn put_slot_header(mem: &mut [u32], at: usize, size: Size)
    requires { at + 2 ≤ length mem.old }
    ensures { mem.new ≡ sets mem.old at (size.matches ∷ size.strings ∷ []) }
{
    mem[at] = size.matches;
    mem[at + 1] = size.strings;
}

// Counts matches in a loop that makes one at most of each: one more, where anything is written from q to next.
pub fn count_one(matches: u32, q: usize, next: usize) -> u32
    requires { matches ≤ max_matches }
    ensures { result ≡ matches + cond (ltb q next) 1 0 }
{
    matches + u32::from(q < next)
}

// Puts the header of a slot whose matches are written, so many, up to next; the strings are the pairs of numbers that are left beside the headers.
pub fn close_slot(mem: &mut [u32], at: usize, next: usize, matches: u32) -> Size
    requires { Closing (length mem.old) at next matches }
    ensures { Closed mem.old mem.new at next matches result }
{
    let strings = ((next - (at + FIRST_MATCH) - matches as usize) / 2) as u32;
    let size = Size { matches, strings };
    put_slot_header(mem, at, size);
    size
}
