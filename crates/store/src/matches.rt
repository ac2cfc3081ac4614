// A match in memory: its header and its strings.
ghost use Rattle.std.specs.Prelude.{[], ◌∷◌, ◌≡◌, ◌+◌, ◌^◌, ◌≤◌, ◌<◌, get_or, length, set};
ghost use Rattle.store.specs.Indices.{ClosingMatch, Counts};
ghost use Rattle.store.specs.Layout.{BoundsOf, excludes_in, header_between, header_of, includes_in, match_length};
ghost use Rattle.store.specs.Put.{Put};
ghost use Rattle.store.specs.Stream.{MatchHeader};

use super::FIRST_STRING;
use super::bounds::Bounds;
use model::RADIX;
use strings::Packed;

// A match's header: how many includes and how many excludes it has, in one number.
#[derive(Clone, Copy, PartialEq, Eq)]
pub struct Header(pub u32);

impl Header {
    // The header of a match with so many includes and excludes.
    fn new(includes: usize, excludes: usize) -> Header
        requires { Counts includes excludes }
        ensures { result.0 ≡ header_of includes excludes }
    {
        Header(includes as u32 * RADIX + excludes as u32)
    }

    // How many includes the match has.
    pub fn includes(self) -> usize
        ensures { result ≡ includes_in self.0 }
    {
        strings::halves::upper(self.0) as usize
    }

    // How many excludes it has.
    pub fn excludes(self) -> usize
        ensures { result ≡ excludes_in self.0 }
    {
        strings::halves::lower(self.0) as usize
    }

    // How many strings it has.
    pub fn strings(self) -> usize
        ensures { result ≡ includes_in self.0 + excludes_in self.0 }
    {
        self.includes() + self.excludes()
    }

    // How many numbers it takes.
    pub fn length(self) -> usize
        ensures { result ≡ match_length self.0 }
    {
        1 + 2 * self.strings()
    }

    // The bounds of the match at `at`.
    pub fn bounds(self, at: usize) -> Bounds
        requires { at + match_length self.0 < 2 ^ 64 }
        ensures { BoundsOf self.0 at result }
    {
        let includes = at + FIRST_STRING;
        let excludes = includes + 2 * self.includes();
        let end = excludes + 2 * self.excludes();
        Bounds {
            includes,
            excludes,
            end,
        }
    }
}

// The bounds of the match at `at`.
pub fn bounds_at(mem: &[u32], at: usize) -> Bounds
    requires { MatchHeader mem.now at }
    ensures { BoundsOf (get_or mem.now at 0) at result }
{
    Header(mem[at]).bounds(at)
}

// The index after the match at `at`.
pub fn match_end(mem: &[u32], at: usize) -> usize
    requires { MatchHeader mem.now at }
    ensures { result ≡ at + match_length (get_or mem.now at 0) }
{
    at + Header(mem[at]).length()
}

// The string at an index.
pub fn string_at(mem: &[u32], i: usize) -> Packed
    requires { i + 2 ≤ length mem.now }
    ensures span_value { result.span ≡ get_or mem.now i 0 }
    ensures tag_value { result.tag ≡ get_or mem.now (i + 1) 0 }
{
    Packed {
        span: mem[i],
        tag: mem[i + 1],
    }
}

// Puts a string; gives the index after it.
pub fn put_string(mem: &mut [u32], q: usize, string: Packed) -> usize
    requires { q + 2 ≤ length mem.old }
    ensures { Put mem.old mem.new q (string.span ∷ string.tag ∷ []) result }
{
    mem[q] = string.span;
    mem[q + 1] = string.tag;
    q + 2
}

// Puts the header of a match whose strings are written: its includes up to `excludes`, and its excludes up to `end`.
pub fn close_match(mem: &mut [u32], at: usize, excludes: usize, end: usize)
    requires { ClosingMatch (length mem.old) at excludes end }
    ensures { mem.new ≡ set mem.old at (header_between at excludes end) }
{
    let includes = at + FIRST_STRING;
    let header = Header::new((excludes - includes) / 2, (end - excludes) / 2);
    mem[at] = header.0;
}
