// The join of the strings of a slice, if it has any.

#![tactic(auto)]

ghost use Rattle.std.specs.Prelude.{MatchOption, [], ◌∷◌, ◌≡◌, ◌&&◌};
ghost use Rattle.model.specs.Lists.{all_of, from_to};
ghost use Rattle.model.specs.Rules.{covered, join};
ghost use Rattle.join.specs.Joined.{Extent};
ghost use Rattle.strings.specs.Strings.{strs_at, strs_of};

use strings::covering::{Chosen, run_covered};
use strings::{Packed, Run, Sort, strings_in};

// "from least start to greatest end"
pub fn extent_of(strs: &[u32]) -> Option<Run>
    ensures { MatchOption result (strs_at strs.now ≡ []) (Extent (strs_at strs.now)) }
{
    let mut rest = strings_in(strs);
    let first = rest.next()?;
    Some(rest.fold(first.run(), |run, s| run.joined(s.run())))
}

// "all were contiguous"
pub fn all_contiguous(strs: &[u32]) -> bool
    ensures { result ≡ all_of (λ t. t.contiguous) (strs_at strs.now) }
{
    strings_in(strs).all(|s| s.is_contiguous())
}

// "contiguous if every position in it is covered and all were contiguous"
fn joins_contiguous(strs: &[u32], run: Run) -> bool
    ensures { result ≡ (all_of (λ t. t.contiguous) (strs_at strs.now) && all_of (covered (strs_at strs.now)) (from_to run.lo.0 run.hi.0)) }
{
    all_contiguous(strs) && run_covered(strs, run, Chosen::All)
}

// "no includes give none. Otherwise one include from least start to greatest end, with the first include's query position"
#[tactic(auto, unfolding(model::specs::Rules::join))]
pub fn join(strs: &[u32]) -> Option<Packed>
    ensures { MatchOption result (join (strs_at strs.now) ≡ []) (λ s. strs_of 0 (join (strs_at strs.now)) ≡ s.span ∷ s.tag ∷ []) }
{
    let run = extent_of(strs)?;
    let first = strings_in(strs).next()?;
    Some(Packed::new(
        run,
        first.query(),
        joins_contiguous(strs, run),
        Sort::Include,
    ))
}
