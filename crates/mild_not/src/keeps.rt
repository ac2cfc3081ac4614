// A match of L against R.
ghost use Rattle.std.specs.Prelude.{◌≡◌};
ghost use Rattle.model.specs.Lists.{all_of};
ghost use Rattle.model.specs.Rules.{has_uncovered};
ghost use Rattle.candidates.specs.Candidates.{CandidatesAt};
ghost use Rattle.mild_not.specs.Keeps.{KeptIs, SearchAt};

use super::uncovered::{Both, find_uncovered};
use candidates::{Candidates, Edges, candidates_for, edges_at};
use store::Header;

// "for every match of R", of the match of L at `left`, which has these edges, and the matches of a part of R. Two of its positions are held against each match of
// R, first its edges, then each position found and the one before it, beginning with the start; only where both are covered is another looked for.
fn search(mem: &[u32], left: usize, edges: Edges, part: Candidates) -> bool
    requires { SearchAt mem.now left edges part.from part.end }
    ensures { (w : SearchAt mem.now left edges part.from part.end) → result ≡ all_of (has_uncovered w.item) w.rights }
{
    let includes = store::bounds_at(mem, left).includes(mem);
    let first = Both {
        p: edges.end,
        q: edges.start,
    };
    let mut last = edges.start;
    let mut at = first.next_covering(mem, part.from, part.end);
    while at < part.end {
        let header = Header(mem[at]);
        let Some(p) = find_uncovered(includes, header.bounds(at).includes(mem)) else {
            return false;
        };
        at = Both { p, q: last }.next_covering(mem, at + header.length(), part.end);
        last = p;
    }
    true
}

// "for every match of R", of the match of L at `left`, the first of the n that are left, and R in the slot at r. What is known of R is for the next match of L.
pub fn is_kept(mem: &[u32], left: usize, n: usize, r: usize, known: &mut Option<Candidates>) -> bool
    requires { CandidatesAt mem.now left n r known.old }
    ensures { (w : CandidatesAt mem.now left n r known.old) → KeptIs w.item w.rights mem.now r known.new result }
{
    let Some(edges) = edges_at(mem, left) else {
        return store::size_at(mem, r).matches == 0;
    };
    let part = candidates_for(mem, left, n, edges, r, *known);
    *known = Some(part);
    search(mem, left, edges, part)
}
