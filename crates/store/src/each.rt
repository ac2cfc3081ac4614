// A rule that goes over a list match by match.
ghost use mathlib.Core.List.{flat_map};
ghost use Rattle.store.specs.Each.{Writer};
ghost use Rattle.store.specs.Layout.{matches_numbers};
ghost use Rattle.store.specs.Put.{Put};

use super::matches::match_end;

// Goes over the n matches from `first` on, and puts what `put` makes of each from `at` on; gives the index after.
pub fn each_match<F: Fn(&mut [u32], usize, usize) -> usize>(
    mem: &mut [u32],
    first: usize,
    n: u32,
    at: usize,
    put: F,
) -> usize
    requires { Writer (F.pre put) (F.post put) mem.old first n at }
    ensures { (w : Writer (F.pre put) (F.post put) mem.old first n at) → Put mem.old mem.new at (matches_numbers (flat_map w.rule w.list)) result }
{
    let mut from = first;
    let mut q = at;
    for _ in 0..n {
        let end = match_end(mem, from);
        q = put(mem, from, q);
        from = end;
    }
    q
}
