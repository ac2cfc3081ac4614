// The first and the last of the matches of R that overlap two ranges.
ghost use Rattle.std.specs.Prelude.{◌≡◌};
ghost use Rattle.strings.specs.Strings.{strs_at};
ghost use Rattle.store.specs.Stream.{Remaining, RemainingAt};
ghost use Rattle.candidates.specs.Passing.{from_first, up_to_last};
ghost use Rattle.candidates.specs.Overlapping.{overlap_both};

use super::edges::Ranges;
use strings::covering::any_overlaps;

// Do the strings have positions in both ranges?
fn overlap_both(strs: &[u32], ranges: Ranges) -> bool
    ensures { result ≡ overlap_both ranges (strs_at strs.now) }
{
    any_overlaps(strs, ranges.start) && any_overlaps(strs, ranges.end)
}

// The first match of R, from the one at `from` on, that overlaps both ranges: where it lies, or the end.
pub fn first_overlapping(mem: &[u32], from: usize, end: usize, ranges: Ranges) -> usize
    requires { RemainingAt mem.now from end }
    ensures { (w : RemainingAt mem.now from end) → Remaining (from_first (overlap_both ranges) w.list) mem.now result end }
{
    let mut at = from;
    // by where each match lies: that is what is answered
    while at < end {
        let bounds = store::bounds_at(mem, at);
        if overlap_both(bounds.includes(mem), ranges) {
            return at;
        }
        at = bounds.end;
    }
    at
}

// The index after the last match of R, from the one at `from` on, that overlaps both ranges; `from` if none does.
pub fn end_of_overlapping(mem: &[u32], from: usize, end: usize, ranges: Ranges) -> usize
    requires { RemainingAt mem.now from end }
    ensures { (w : RemainingAt mem.now from end) → Remaining (up_to_last (overlap_both ranges) w.list) mem.now from result }
{
    let mut stop = from;
    let mut at = from;
    // by where each match lies: that is what is answered
    while at < end {
        let bounds = store::bounds_at(mem, at);
        if overlap_both(bounds.includes(mem), ranges) {
            stop = bounds.end;
        }
        at = bounds.end;
    }
    stop
}
