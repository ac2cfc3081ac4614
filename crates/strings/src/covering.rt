// Which positions the strings of a slice cover. A run of positions is gone through string by string, never position by position.
ghost use Rattle.std.specs.Prelude.{◌≡◌};
ghost use Rattle.model.specs.Lists.{all_of, from_to};
ghost use Rattle.model.specs.Rules.{covered, covers};
ghost use Rattle.strings.specs.Strings.{str_packed, strs_at};
ghost use Rattle.strings.specs.Covering.{advanced, any_overlaps, chosen, is_chosen, overlaps, passed, RunEnd};

use super::packed::{Packed, strings_in};
use super::positions::Run;
use model::Position;

// Which strings count: all of them, or only the contiguous ones.
#[derive(Clone, Copy, PartialEq, Eq)]
pub enum Chosen {
    All,
    Contiguous,
}

// Does a string cover a position?
pub fn covers(s: Packed, p: Position) -> bool
    ensures { result ≡ covers (str_packed s) p.0 }
{
    s.run().has(p)
}

// Does a string have a position of the run?
fn overlaps(s: Packed, run: Run) -> bool
    ensures { result ≡ overlaps run.lo.0 run.hi.0 (str_packed s) }
{
    s.start() <= run.hi && run.lo <= s.end()
}

// Does any of the strings have a position of the run?
pub fn any_overlaps(strs: &[u32], run: Run) -> bool
    ensures { result ≡ any_overlaps run.lo.0 run.hi.0 (strs_at strs.now) }
{
    strings_in(strs).any(|s| overlaps(s, run))
}

// "some include covers position"
pub fn covered(strs: &[u32], p: Position) -> bool
    ensures { result ≡ covered (strs_at strs.now) p.0 }
{
    any_overlaps(strs, Run { lo: p, hi: p })
}

// Does a string count?
fn is_chosen(s: Packed, which: Chosen) -> bool
    ensures { result ≡ is_chosen which (str_packed s) }
{
    match which {
        Chosen::All => true,
        Chosen::Contiguous => s.is_contiguous(),
    }
}

// A position, moved to the one after a chosen string that covers it.
fn passed(s: Packed, p: Position, which: Chosen) -> Position
    ensures { result.0 ≡ passed which p.0 (str_packed s) }
{
    if is_chosen(s, which) && covers(s, p) {
        Position(s.end().0 + 1)
    } else {
        p
    }
}

// A position, moved past each chosen string in turn that covers it.
pub fn advance(strs: &[u32], p: Position, which: Chosen) -> Position
    ensures { result.0 ≡ advanced p.0 (chosen which (strs_at strs.now)) }
{
    strings_in(strs).fold(p, |at, s| passed(s, at, which))
}

// Where a run of positions stops being covered: at the first that no chosen string covers, or after its last.
pub fn run_end(strs: &[u32], run: Run, which: Chosen) -> Position
    ensures { RunEnd (chosen which (strs_at strs.now)) run.lo.0 run.hi.0 result.0 }
{
    let mut p = run.lo;
    // not a position at a time: past each string that covers it
    while p <= run.hi {
        let next = advance(strs, p, which);
        if next == p {
            return p;
        }
        p = next;
    }
    p
}

// "every position in it is covered"; with `Chosen::Contiguous`, "by some contiguous include"
pub fn run_covered(strs: &[u32], run: Run, which: Chosen) -> bool
    ensures { result ≡ all_of (covered (chosen which (strs_at strs.now))) (from_to run.lo.0 run.hi.0) }
{
    run.hi < run_end(strs, run, which)
}
