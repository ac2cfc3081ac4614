// How many choices of a or more of m finds there are, and how large the list is with the not's matches. The choices are counted from the one of all
// finds down, and the count ends as soon as there are too many. So no number grows large, and the count is short: of a hundred finds, the choices of
// 99 are too many already.
ghost use Rattle.std.specs.Prelude.{◌≡◌, ◌≤◌, MatchResult};
ghost use Rattle.model.specs.Limits.{max_matches, max_strings};
ghost use Rattle.occurs.specs.Counts.{counted_of, ExcessIs, ExcessIsNot, size_with_not};
ghost use Rattle.occurs.specs.WithNot.{not_matches, not_strings, excess_of};

use model::{MAX_MATCHES, MAX_STRINGS};
use store::{Built, TooLong};

// How many of the finds are too many, where at most b are wanted. By it goes the not of 'at least b + 1'.
#[derive(Clone, Copy)]
pub enum Excess {
    No,
    One,
    // both of two
    Both,
}

impl Excess {
    // The excess of m finds. Where two or more are too many, the list is too long, unless there are only two.
    pub fn of(m: u32, b: u32) -> Result<Excess, TooLong>
        ensures { MatchResult result (ExcessIs m b) (λ _. ExcessIsNot m b) }
    {
        match m.saturating_sub(b) {
            0 => Ok(Excess::No),
            1 => Ok(Excess::One),
            _ if m == 2 => Ok(Excess::Both),
            _ => Err(TooLong),
        }
    }

    // How many matches the not has, of m finds.
    pub fn not_matches(self, m: u32) -> u32
        ensures { result ≡ not_matches (excess_of self) m }
    {
        match self {
            Excess::No => 1,
            Excess::One | Excess::Both => m,
        }
    }

    // How many strings each of them has, all of them excludes.
    fn not_strings(self, m: u32) -> u32
        requires { m ≤ max_matches }
        ensures { result ≡ not_strings (excess_of self) m }
    {
        match self {
            Excess::No => 0,
            Excess::One => 1,
            Excess::Both => m + 1,
        }
    }
}

// So many choices, which have so many includes together; and how many of them are of a finds, the fewest.
#[derive(Clone, Copy)]
pub struct Counts {
    pub choices: u32,
    pub includes: u32,
    pub fewest: u32,
}

// How many choices of a or more of m finds there are, up to 256 choices and 512 includes.
pub fn count_choices(m: u32, a: u32) -> Result<Counts, TooLong>
    requires { m ≤ max_matches }
    ensures { result ≡ counted_of m a }
{
    if m < a {
        return Ok(Counts {
            choices: 0,
            includes: 0,
            fewest: 0,
        });
    }
    let mut counts = Counts {
        choices: 1,
        includes: m,
        fewest: 1,
    };
    for d in 0..m - a {
        // those of one find less
        let k = m - d - 1;
        counts.fewest = counts.fewest * (k + 1) / (d + 1);
        counts.choices += counts.fewest;
        counts.includes += counts.fewest * k;
        if MAX_MATCHES < counts.choices || MAX_STRINGS < counts.includes {
            return Err(TooLong);
        }
    }
    Ok(counts)
}

impl Counts {
    // The size of the list of these choices of m finds, each joined with every match of the not.
    pub fn size_with_not(self, m: u32, excess: Excess) -> Built
        requires { (m ≤ max_matches) × (self.choices ≤ max_matches) × (self.includes ≤ max_strings) }
        ensures { result ≡ size_with_not m (excess_of excess) self.choices self.includes }
    {
        let n = excess.not_matches(m);
        let each = excess.not_strings(m);
        store::sized(n * self.choices, n * (self.includes + self.choices * each))
    }
}
