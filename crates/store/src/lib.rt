// Match lists in working memory. A list lies in a slot: its number of matches, its number of strings, then each match as a header and its strings.
// Of nine slots eight are for the lists that wait, the first at 0; the ninth is to build in. Every function takes memory whole, with indices.

#![tactic(auto)]

mod bounds;
mod copying;
mod each;
mod lent;
mod matches;
mod slots;

ghost use Rattle.std.specs.Prelude.{◌≡◌};
ghost use Rattle.store.specs.Built.{sized_as};

pub use bounds::Bounds;
pub use copying::copy_up;
pub use each::each_match;
pub use lent::{Lent, Matches, is_yes, matches_of};
pub use matches::{Header, bounds_at, close_match, match_end, put_string, string_at};
use model::{MAX_MATCHES, MAX_STRINGS};
pub use slots::{close_slot, copy_slot_down, count_one, put_slot_header, size_at, slot_end};

// How many numbers a slot takes at most: 2 + 256 + 2 × 512.
pub const SLOT: usize = 1282;
// Where the first match lies in its slot: after the two counts.
pub const FIRST_MATCH: usize = 2;
// Where the first string lies in its match: after the header.
pub const FIRST_STRING: usize = 1;
// Where the slot to build in lies: after eight others.
pub const SCRATCH: usize = 10256;

// How many matches a list has, and how many strings they have together.
#[derive(Clone, Copy, PartialEq, Eq)]
pub struct Size {
    pub matches: u32,
    pub strings: u32,
}

// A list has over 256 matches or 512 strings.
#[derive(Clone, Copy, PartialEq, Eq)]
pub struct TooLong;

// What building a list comes to: it is in its slot and has this size, or it is too long.
pub type Built = Result<Size, TooLong>;

// The answer for a list of so many matches and strings.
pub fn sized(matches: u32, strings: u32) -> Built
    ensures { result ≡ sized_as matches strings }
{
    if MAX_MATCHES < matches || MAX_STRINGS < strings {
        Err(TooLong)
    } else {
        Ok(Size { matches, strings })
    }
}
