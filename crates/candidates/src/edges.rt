// The edges of a match of L, the start of its first include and the end of its last one, and the ranges of the edges of several. Includes stand in the
// selection's order, so that the edges need not be the least and the greatest position.
ghost use Rattle.std.specs.Prelude.{◌≡◌, take};
ghost use Rattle.store.specs.Stream.{StreamAt};
ghost use Rattle.strings.specs.Strings.{strs_at};
ghost use Rattle.candidates.specs.Edges.{ahead, contain, edges_of, MatchAt, ranges_at, widened, with_match, with_matches};

use model::Position;
use strings::{Run, end_of, start_of};

// How many matches of L a part of R is found for.
const AHEAD: usize = 16;

// The start of a match's first include, and the end of its last one.
#[derive(Clone, Copy)]
pub struct Edges {
    pub start: Position,
    pub end: Position,
}

// The edges of a match with these includes, if it has any.
fn edges_of(strs: &[u32]) -> Option<Edges>
    ensures { result ≡ edges_of (strs_at strs.now) }
{
    if strs.len() < 2 {
        return None;
    }
    let last = strs.len() / 2 * 2 - 2;
    Some(Edges {
        start: start_of(strs[0]),
        end: end_of(strs[last]),
    })
}

// The edges of the match at `at`, if it has includes.
pub fn edges_at(mem: &[u32], at: usize) -> Option<Edges>
    requires { MatchAt mem.now at }
    ensures { (w : MatchAt mem.now at) → result ≡ edges_of w.item.includes }
{
    edges_of(store::bounds_at(mem, at).includes(mem))
}

// The edges of several matches: a run with all starts, and one with all ends.
#[derive(Clone, Copy)]
pub struct Ranges {
    pub start: Run,
    pub end: Run,
}

impl Ranges {
    // The ranges of the edges of one match.
    fn at(edges: Edges) -> Ranges
        ensures { result ≡ ranges_at edges }
    {
        Ranges {
            start: Run {
                lo: edges.start,
                hi: edges.start,
            },
            end: Run {
                lo: edges.end,
                hi: edges.end,
            },
        }
    }

    // Are the edges within the ranges?
    pub fn contain(self, edges: Edges) -> bool
        ensures { result ≡ contain self edges }
    {
        self.start.has(edges.start) && self.end.has(edges.end)
    }

    // The ranges, widened to the edges of one more match.
    fn widened(self, edges: Edges) -> Ranges
        ensures { result ≡ widened self edges }
    {
        let more = Ranges::at(edges);
        Ranges {
            start: self.start.joined(more.start),
            end: self.end.joined(more.end),
        }
    }

    // The ranges, widened to the edges of the match at `at`, if it has includes.
    fn with_match(self, mem: &[u32], at: usize) -> Ranges
        requires { MatchAt mem.now at }
        ensures { (w : MatchAt mem.now at) → result ≡ with_match self w.item }
    {
        match edges_at(mem, at) {
            Some(edges) => self.widened(edges),
            None => self,
        }
    }
}

// The ranges of these edges and those of the matches of L from `from` on: of sixteen, or of n if there are no more.
pub fn ranges_ahead(mem: &[u32], from: usize, n: usize, edges: Edges) -> Ranges
    requires { StreamAt mem.now from n }
    ensures { (w : StreamAt mem.now from n) → result ≡ with_matches (ranges_at edges) (take ahead w.list) }
{
    let mut ranges = Ranges::at(edges);
    let mut at = from;
    for _ in 0..n.min(AHEAD) {
        ranges = ranges.with_match(mem, at);
        at = store::match_end(mem, at);
    }
    ranges
}
