// The choices from finds, written above them. Every function here returns the index after what it wrote.
ghost use Rattle.std.specs.Prelude.{drop, take};
ghost use Rattle.strings.specs.Strings.{strs_of};
ghost use Rattle.store.specs.Layout.{match_numbers, matches_numbers};
ghost use Rattle.store.specs.Put.{Put};
ghost use Rattle.occurs.specs.Binomial.{chosen};
ghost use Rattle.occurs.specs.WithNot.{at_least_with_not, choices_with_not, choice_with_not, match_of, not_excludes, excess_of};
ghost use Rattle.occurs.specs.Writing.{ChoiceAt, ChoicesAt, ExcludeAt, ExcludesAt, IncludesAt, JoinedAt, SizesAt};

use super::counts::Excess;
use strings::Sort;

// How many numbers a find takes: a header and one string.
const FIND: usize = 3;

// Writes find number d in the slot at src as an exclude.
fn put_exclude(mem: &mut [u32], src: usize, d: u32, at: usize) -> usize
    requires { ExcludeAt mem.old src d at }
    ensures { (w : ExcludeAt mem.old src d at)
        → Put mem.old mem.new at (strs_of 1 (take 1 (drop d w.finds))) result }
{
    let from = src + store::FIRST_MATCH + FIND * d as usize + store::FIRST_STRING;
    let string = store::string_at(mem, from);
    store::put_string(mem, at, string.with_sort(Sort::Exclude))
}

// The choices of k of the finds in the slot at src, of which there are `total`, each joined with every match of the not.
#[derive(Clone, Copy)]
struct OfSize {
    src: usize,
    excess: Excess,
    k: u32,
    total: u32,
}

impl OfSize {
    // Writes the includes of choice number c. On the way there are `weight` choices of `left` from the n finds left, and number `rest` is to be written: those
    // with the next find come first.
    fn put_includes(self, mem: &mut [u32], c: u32, at: usize) -> usize
        requires { IncludesAt mem.old self.src self.k self.total c at }
        ensures { (w : IncludesAt mem.old self.src self.k self.total c at)
            → Put mem.old mem.new at (strs_of 0 (chosen self.k w.finds c)) result }
    {
        let mut n = store::size_at(mem, self.src).matches;
        let mut from = self.src + store::FIRST_MATCH;
        let mut q = at;
        let mut left = self.k;
        let mut rest = c;
        let mut weight = self.total;
        // as many finds as it takes until k of them are chosen
        while 0 < left {
            let with_next = weight * left / n;
            if rest < with_next {
                let string = store::string_at(mem, from + store::FIRST_STRING);
                q = store::put_string(mem, q, string);
                left -= 1;
                weight = with_next;
            } else {
                rest -= with_next;
                weight -= with_next;
            }
            n -= 1;
            from += FIND;
        }
        q
    }

    // Writes the excludes of the not's match number d.
    fn put_excludes(self, mem: &mut [u32], d: u32, at: usize) -> usize
        requires { ExcludesAt mem.old self.src (excess_of self.excess) d at }
        ensures { (w : ExcludesAt mem.old self.src (excess_of self.excess) d at)
            → Put mem.old mem.new at (strs_of 1 (not_excludes (excess_of self.excess) w.finds d)) result }
    {
        match self.excess {
            Excess::No => at,
            Excess::One => put_exclude(mem, self.src, d, at),
            Excess::Both => {
                // both finds, and then one of them again
                let second = put_exclude(mem, self.src, 0, at);
                let third = put_exclude(mem, self.src, 1, second);
                put_exclude(mem, self.src, d, third)
            }
        }
    }

    // Writes choice number c joined with the not's match number d.
    fn put_joined(self, mem: &mut [u32], c: u32, d: u32, at: usize) -> usize
        requires { JoinedAt mem.old self.src self.k self.total c (excess_of self.excess) d at }
        ensures { (w : JoinedAt mem.old self.src self.k self.total c (excess_of self.excess) d at)
            → Put mem.old mem.new at (match_numbers (match_of (chosen self.k w.finds c) (not_excludes (excess_of self.excess) w.finds d))) result }
    {
        let excludes = self.put_includes(mem, c, at + store::FIRST_STRING);
        let end = self.put_excludes(mem, d, excludes);
        store::close_match(mem, at, excludes, end);
        end
    }

    // Writes choice number c joined with every match of the not.
    fn put_choice(self, mem: &mut [u32], c: u32, at: usize) -> usize
        requires { ChoiceAt mem.old self.src self.k self.total c (excess_of self.excess) at }
        ensures { (w : ChoiceAt mem.old self.src self.k self.total c (excess_of self.excess) at)
            → Put mem.old mem.new at (matches_numbers (choice_with_not (excess_of self.excess) w.finds (chosen self.k w.finds c))) result }
    {
        let n = self
            .excess
            .not_matches(store::size_at(mem, self.src).matches);
        let mut q = at;
        for d in 0..n {
            q = self.put_joined(mem, c, d, q);
        }
        q
    }

    // Writes every choice.
    fn put_all(self, mem: &mut [u32], at: usize) -> usize
        requires { ChoicesAt mem.old self.src self.k self.total (excess_of self.excess) at }
        ensures { (w : ChoicesAt mem.old self.src self.k self.total (excess_of self.excess) at)
            → Put mem.old mem.new at (matches_numbers (choices_with_not (excess_of self.excess) w.finds self.k)) result }
    {
        let mut q = at;
        for c in 0..self.total {
            q = self.put_choice(mem, c, q);
        }
        q
    }
}

// "fewest first": writes every choice of a or more of the finds in the slot at src, of which `fewest` have a.
pub fn put_sizes(
    mem: &mut [u32],
    src: usize,
    excess: Excess,
    a: u32,
    fewest: u32,
    at: usize,
) -> usize
    requires { SizesAt mem.old src a fewest (excess_of excess) at }
    ensures { (w : SizesAt mem.old src a fewest (excess_of excess) at)
        → Put mem.old mem.new at (matches_numbers (at_least_with_not a (excess_of excess) w.finds)) result }
{
    let m = store::size_at(mem, src).matches;
    let mut q = at;
    let mut total = fewest;
    for k in a..m + 1 {
        let choices = OfSize {
            src,
            excess,
            k,
            total,
        };
        q = choices.put_all(mem, q);
        total = total * (m - k) / (k + 1);
    }
    q
}
