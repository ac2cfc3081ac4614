// The listing of a list in a slot, written to the listing buffer.

#![tactic(auto)]

ghost use mathlib.Core.List.{flat_map, map};
ghost use Rattle.std.specs.Prelude.{◌≡◌, ◌+◌, ◌≤◌, length};
ghost use Rattle.std.proofs.lemmas.List.Edits.{sets};
ghost use Rattle.model.specs.Answers.{listing_numbers};
ghost use Rattle.model.specs.Limits.{buffer_length};
ghost use Rattle.model.specs.Matches.{strings_in};
ghost use Rattle.store.specs.Slot.{SlotAt};
ghost use Rattle.store.specs.Stream.{StreamAt};
ghost use Rattle.listing_buffer.specs.Columns.{ColumnAt, column_in, offset_of};

use store::Header;

// "the M string counts": of the n matches from `first` on, to the buffer from q on.
fn put_counts(mem: &[u32], first: usize, n: usize, buffer: &mut [u32], q: usize)
    requires stream_at { StreamAt mem.now first n }
    requires n_in_bounds { q + n ≤ length buffer.old }
    ensures { (w : StreamAt mem.now first n) → buffer.new ≡ sets buffer.old q (map strings_in w.list) }
{
    let mut at = first;
    for i in 0..n {
        let header = Header(mem[at]);
        buffer[q + i] = header.strings() as u32;
        at += header.length();
    }
}

// The "two parallel arrays".
#[derive(Clone, Copy, PartialEq, Eq)]
enum Column {
    Spans,
    Tags,
}

impl Column {
    // Where its number stands in a string.
    fn offset(self) -> usize
        ensures { result ≡ offset_of self }
    {
        match self {
            Column::Spans => 0,
            Column::Tags => 1,
        }
    }
}

// One of the arrays, of the n matches from `first` on, to the buffer from `at` on.
fn put_column(mem: &[u32], first: usize, n: usize, column: Column, buffer: &mut [u32], at: usize)
    requires { ColumnAt mem.now first n (length buffer.old) at }
    ensures { (w : ColumnAt mem.now first n (length buffer.old) at)
        → buffer.new ≡ sets buffer.old at (flat_map (column_in (offset_of column)) w.list) }
{
    let mut from = first;
    let mut q = at;
    for _ in 0..n {
        let bounds = store::bounds_at(mem, from);
        let strings = Header(mem[from]).strings();
        slices::copy_every_second(mem, bounds.includes + column.offset(), strings, buffer, q);
        q += strings;
        from = bounds.end;
    }
}

// "The buffer then holds M, S, the M string counts, then two parallel arrays of S": spans and tags.
pub fn put_listing(mem: &[u32], src: usize, buffer: &mut [u32])
    requires slot_at { SlotAt mem.now src }
    requires buffer_length_in_bounds { buffer_length ≤ length buffer.old }
    ensures { (w : SlotAt mem.now src) → buffer.new ≡ sets buffer.old 0 (listing_numbers w.list) }
{
    let size = store::size_at(mem, src);
    let first = src + store::FIRST_MATCH;
    let n = size.matches as usize;
    let spans = 2 + n;
    let tags = spans + size.strings as usize;
    buffer[0] = size.matches;
    buffer[1] = size.strings;
    put_counts(mem, first, n, buffer, 2);
    put_column(mem, first, n, Column::Spans, buffer, spans);
    put_column(mem, first, n, Column::Tags, buffer, tags);
}
