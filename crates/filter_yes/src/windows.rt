// The windows around a match: whether there is one that no exclude is inside. A window is named by its last position, W + N − 1, as in the definition. An
// exclude is inside those from its end up to its start + N − 1, so windows are gone through exclude by exclude, never W by W.
ghost use Rattle.std.specs.Prelude.{not, ◌≡◌, ◌+◌, ◌-◌, ◌<◌};
ghost use Rattle.model.specs.Limits.{radix};
ghost use Rattle.model.specs.Lists.{all_of, from_to};
ghost use Rattle.model.specs.Rules.{covered, window};
ghost use Rattle.strings.specs.declared.covering.Chosen.TheVariants.{All};
ghost use Rattle.strings.specs.Covering.{advanced, passed};
ghost use Rattle.strings.specs.Strings.{str_packed, strs_at};
ghost use Rattle.window.specs.Inside.{WindowSize};
ghost use Rattle.filter_yes.specs.Windows.{lasts_around, taken};

use super::Asked;
use join::extent_of;
use model::Position;
use strings::{Packed, Run, strings_in};
use window::is_inside;

// The windows of n positions.
#[derive(Clone, Copy)]
pub struct Windows {
    pub n: u32,
    ghost size: { WindowSize n },
}

impl Windows {
    // A window's last position, moved to the first after the windows that a string is inside, if it is inside this one.
    fn passed(self, last: Position, s: Packed) -> Position
        ensures { result.0 ≡ passed All last.0 (lasts_around self.n (str_packed s)) }
    {
        if is_inside(self.n, last, s.span) {
            Position(s.start().0 + self.n)
        } else {
            last
        }
    }

    // A window's last position, moved past the windows of each exclude in turn that is inside.
    fn advance(self, last: Position, excludes: &[u32]) -> Position
        ensures { result.0 ≡ advanced last.0 (taken self.n (strs_at excludes.now)) }
    {
        strings_in(excludes).fold(last, |at, s| self.passed(at, s))
    }

    // Is there a window around a join of these positions that no exclude is inside?
    fn any_free_around(self, run: Run, excludes: &[u32]) -> bool
        requires { run.lo.0 < radix }
        ensures { result ≡ not (all_of (covered (taken self.n (strs_at excludes.now))) (from_to run.hi.0 (run.lo.0 + self.n - 1))) }
    {
        let before = Position(run.lo.0 + self.n);
        let mut last = run.hi;
        // not a position at a time: from one window to the next that these excludes allow
        while last < before {
            let next = self.advance(last, excludes);
            if next == last {
                return true;
            }
            last = next;
        }
        false
    }
}

impl Asked for Windows {
    ghost gives = { λ w. window w.n };

    // "one match: the join, and the excludes inside": is there a window without one? "A match without includes is dropped."
    fn gives_yes(self, includes: &[u32], excludes: &[u32]) -> bool {
        match extent_of(includes) {
            Some(run) => self.any_free_around(run, excludes),
            None => false,
        }
    }
}
