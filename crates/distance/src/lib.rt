// How far strings lie apart.

#![tactic(auto)]

ghost use Rattle.std.specs.Prelude.{◌≡◌, ◌||◌, map, ℕ, leb};
ghost use Rattle.model.specs.Answers.{span_of};
ghost use Rattle.model.specs.Rules.{between, distance, distance_of, within};
ghost use Rattle.distance.specs.Sorting.{nearer, passes, passing, spans_within};
ghost use Rattle.strings.specs.Strings.{str_of, str_packed, strs_at};

use strings::{Packed, end_of, start_of, strings_in};

// The distances from `least` to `most`.
#[derive(Clone, Copy, PartialEq, Eq)]
pub struct Distances {
    pub least: u32,
    pub most: u32,
}

impl Distances {
    // Is a distance among them?
    fn has(self, distance: u32) -> bool
        ensures { result ≡ within self.least self.most distance }
    {
        self.least <= distance && distance <= self.most
    }
}

// "second start − first end − 1, or 0 where that is negative"
fn between(first: u32, second: u32) -> u32
    ensures { result ≡ between (str_of first 0) (str_of second 0) }
{
    start_of(second).0.saturating_sub(end_of(first).0 + 1)
}

// Distance "of two spans, sorted by start then end".
pub fn distance_of(span: u32, other_span: u32) -> u32
    ensures { (tag other : ℕ) → result ≡ distance_of (str_of span tag) (str_of other_span other) }
{
    if span <= other_span {
        between(span, other_span)
    } else {
        between(other_span, span)
    }
}

// Is the distance of two spans among these?
fn lies_within(span: u32, other: u32, distances: Distances) -> bool
    ensures { result ≡ spans_within distances.least distances.most span other }
{
    distances.has(distance_of(span, other))
}

// "whose distance to every include lies in a to b"
pub fn in_distance(s: Packed, strs: &[u32], distances: Distances) -> bool
    ensures { result ≡ (distance distances.least distances.most).stays (strs_at strs.now) (str_packed s) }
{
    strings_in(strs).all(|other| lies_within(s.span, other.span, distances))
}

// The lesser of two numbers above a span; one that isn't above it doesn't count.
fn nearer(span: u32, a: u32, b: u32) -> u32
    ensures { result ≡ nearer span a b }
{
    if a <= span {
        b
    } else if b <= span {
        a
    } else {
        a.min(b)
    }
}

// Is a span's distance to the least above it among these? Where `above` isn't above it, none is, and it passes.
fn above_within(span: u32, above: u32, distances: Distances) -> bool
    ensures { result ≡ (leb above span || spans_within distances.least distances.most span above) }
{
    above <= span || lies_within(span, above, distances)
}

// Is a span's distance to what follows it among the sorted spans one of these? The least above follows its last copy, a copy the others.
fn followed_within(span: u32, copies: usize, above: u32, distances: Distances) -> bool
    ensures { result ≡ passing (spans_within distances.least distances.most) span copies above }
{
    above_within(span, above, distances) && (copies <= 1 || lies_within(span, span, distances))
}

// The same among the strings of a slice: one pass counts the copies and finds the least above.
fn next_within(span: u32, strs: &[u32], distances: Distances) -> bool
    ensures { result ≡ passes (spans_within distances.least distances.most) span (map span_of (strs_at strs.now)) }
{
    let mut copies: usize = 0;
    let mut above = span;
    for s in strings_in(strs) {
        if s.span == span {
            copies += 1;
        } else {
            above = nearer(span, s.span, above);
        }
    }
    followed_within(span, copies, above, distances)
}

// "all neighbours among the sorted includes lie in a to b". Nothing is sorted: each string is held against the one that would follow it.
pub fn sorted_within(strs: &[u32], distances: Distances) -> bool
    ensures { result ≡ (distance distances.least distances.most).keeps (strs_at strs.now) }
{
    strings_in(strs).all(|s| next_within(s.span, strs, distances))
}
