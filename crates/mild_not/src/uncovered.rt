// Positions that includes of L cover and those of R don't: one is looked for, and two that are found are held against the matches of R.
ghost use Rattle.std.specs.Prelude.{◌≡◌, ◌≤◌};
ghost use Rattle.model.specs.AllStrings.{AllStrs};
ghost use Rattle.model.specs.Rules.{covered, covers};
ghost use Rattle.store.specs.Stream.{Remaining, RemainingAt, SearchInvariant};
ghost use Rattle.store.specs.ValidStr.{ValidStr};
ghost use Rattle.strings.specs.Strings.{str_packed, strs_at};
ghost use Rattle.mild_not.specs.Uncovered.{cover_both, FoundUncovered};
ghost use Rattle.candidates.specs.Passing.{from_first};

use model::Position;
use store::Header;
use strings::covering::{Chosen, run_end};
use strings::{Packed, strings_in};

// "some position covered by an include isn't covered by R's includes": one of a left match and a right match, if there is any
pub fn find_uncovered(lefts: &[u32], rights: &[u32]) -> Option<Position>
    ensures { FoundUncovered (strs_at lefts.now) (strs_at rights.now) result }
{
    for s in strings_in(lefts) {
        let p = run_end(rights, s.run(), Chosen::All);
        if p <= s.end() {
            return Some(p);
        }
    }
    None
}

// Does a string cover a position? Its start isn't after its end, so one comparison is enough: the position's distance from the start is at most the end's.
// Before the start it wraps, and is greater than any.
fn covers(s: Packed, p: Position) -> bool
    requires { (str_packed s).start ≤ (str_packed s).end }
    ensures { result ≡ covers (str_packed s) p.0 }
{
    let start = s.start().0;
    let most = s.end().0 - start;
    p.0.wrapping_sub(start) <= most
}

// Do the strings cover a position?
fn is_covered(strs: &[u32], p: Position) -> bool
    requires { AllStrs ValidStr (strs_at strs.now) }
    ensures { result ≡ covered (strs_at strs.now) p.0 }
{
    for s in strings_in(strs) {
        if covers(s, p) {
            return true;
        }
    }
    false
}

// Two positions that includes of a match of L cover.
#[derive(Clone, Copy)]
pub struct Both {
    pub p: Position,
    pub q: Position,
}

impl Both {
    // Do the strings cover both?
    fn are_covered(self, strs: &[u32]) -> bool
        requires { AllStrs ValidStr (strs_at strs.now) }
        ensures { result ≡ cover_both self.p.0 self.q.0 (strs_at strs.now) }
    {
        is_covered(strs, self.p) && is_covered(strs, self.q)
    }

    // Skips the matches of R from the one at `from` on that have this header and whose includes don't cover both; gives the index of the first other match, or
    // the end. Equal headers mean equal lengths, so the index of the next match is known before its header is read.
    fn skip_same_header(self, mem: &[u32], from: usize, end: usize, header: Header) -> usize
        requires { RemainingAt mem.now from end }
        ensures lower_bound { from ≤ result }
        ensures search_invariant { (w : RemainingAt mem.now from end)
            → SearchInvariant (from_first (cover_both self.p.0 self.q.0) w.list) (from_first (cover_both self.p.0 self.q.0)) mem.now result end }
    {
        // of a match with this header, counted from its own index
        let own = header.bounds(0);
        let mut at = from;
        while at < end {
            if mem[at] != header.0 || self.are_covered(&mem[at + own.includes..at + own.excludes]) {
                return at;
            }
            at += own.end;
        }
        at
    }

    // The first match of R, from the one at `from` on, whose includes cover both: where it lies, or the end.
    pub fn next_covering(self, mem: &[u32], from: usize, end: usize) -> usize
        requires { RemainingAt mem.now from end }
        ensures lower_bound { from ≤ result }
        ensures remaining { (w : RemainingAt mem.now from end) → Remaining (from_first (cover_both self.p.0 self.q.0) w.list) mem.now result end }
    {
        let mut at = from;
        while at < end {
            let header = Header(mem[at]);
            if self.are_covered(header.bounds(at).includes(mem)) {
                return at;
            }
            // not sooner: a match that covers both has no need of it
            let next = at + header.length();
            at = self.skip_same_header(mem, next, end, header);
        }
        at
    }
}
