// Runs of positions.
ghost use Rattle.std.specs.Prelude.{◌≡◌, ◌&&◌, min, max, leb};

use model::Position;

// The positions from one to another; none where the first is after the second.
#[derive(Clone, Copy, PartialEq, Eq)]
pub struct Run {
    pub lo: Position,
    pub hi: Position,
}

impl Run {
    // Is a position among them?
    pub fn has(self, p: Position) -> bool
        ensures { result ≡ (leb self.lo.0 p.0 && leb p.0 self.hi.0) }
    {
        self.lo <= p && p <= self.hi
    }

    // The run that takes in both, and what is between them.
    pub fn joined(self, other: Run) -> Run
        ensures lo_value { result.lo.0 ≡ min self.lo.0 other.lo.0 }
        ensures hi_value { result.hi.0 ≡ max self.hi.0 other.hi.0 }
    {
        Run {
            lo: self.lo.min(other.lo),
            hi: self.hi.max(other.hi),
        }
    }
}
