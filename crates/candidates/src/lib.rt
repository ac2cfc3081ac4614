// Which matches of R can cover all positions of a match of L: only those that cover its edges, the start of its first include and the end of its last one.
// The edges of matches of L that follow each other mostly lie close together, so one part of R is enough for many of them.

#![tactic(auto)]

mod edges; // of the matches of L
mod overlapping; // the matches of R that have positions in their ranges

ghost use Rattle.std.specs.Prelude.{Some, ◌≡◌};
ghost use Rattle.candidates.specs.Edges.{edges_of, Contains};
ghost use Rattle.candidates.specs.Candidates.{CandidatesAt, CandidatesAre};

pub use edges::{Edges, edges_at};
use edges::{Ranges, ranges_ahead};
use overlapping::{end_of_overlapping, first_overlapping};

// A part of R, the matches from `from` up to `end`: no other one covers a position of each range.
#[derive(Clone, Copy)]
pub struct Candidates {
    pub ranges: Ranges,
    pub from: usize,
    pub end: usize,
}

// The candidates for the match of L at `left`, which has these edges and is the first of the n that are left: those known, if their ranges contain the edges,
// else new ones.
pub fn candidates_for(
    mem: &[u32],
    left: usize,
    n: usize,
    edges: Edges,
    r: usize,
    known: Option<Candidates>,
) -> Candidates
    requires { CandidatesAt mem.now left n r known }
    ensures { (w : CandidatesAt mem.now left n r known) → CandidatesAre w.rights mem.now r result × Contains result.ranges edges }
{
    if let Some(known) = known {
        if known.ranges.contain(edges) {
            return known;
        }
    }
    let ranges = ranges_ahead(mem, left, n, edges);
    let stop = store::slot_end(mem, r);
    let from = first_overlapping(mem, r + store::FIRST_MATCH, stop, ranges);
    let end = end_of_overlapping(mem, from, stop, ranges);
    Candidates { ranges, from, end }
}
