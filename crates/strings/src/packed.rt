// A string in lent memory, its two numbers, and the strings of a slice one after the other.
ghost use Rattle.std.specs.Prelude.{List, cond, ◌≡◌, ◌+◌, ◌*◌, ◌/◌, ◌%◌, ◌<◌, ◌^◌};
ghost use Rattle.std.specs.Iterator.{YieldsFirstBy, item_count};
ghost use Rattle.model.specs.Limits.{radix};
ghost use Rattle.model.specs.Matches.{Str};
ghost use Rattle.strings.specs.Strings.{number_of_sort, str_packed, strs_at};

use super::positions::Run;
use super::spans::{end_of, span_of, start_of};
use model::Position;
use std::marker::Model;

// Whether a string has to be there or must not.
#[derive(Clone, Copy, PartialEq, Eq)]
pub enum Sort {
    Include = 0,
    Exclude = 1,
}

// A string: its span, start × 65,536 + end, and its tag, query position × 4, plus 2 if contiguous, plus 1 if an exclude.
#[derive(Clone, Copy, PartialEq, Eq)]
pub struct Packed {
    pub span: u32,
    pub tag: u32,
}

impl Packed {
    // The string of the positions of a run, a query position, a contiguous mark and a sort.
    pub fn new(run: Run, query: u32, contiguous: bool, sort: Sort) -> Packed
        requires positions { (run.lo.0 < radix) × (run.hi.0 < radix) }
        requires queries { query < 2 ^ 30 }
        ensures span_value { result.span ≡ run.lo.0 * radix + run.hi.0 }
        ensures tag_value { result.tag ≡ query * 4 + cond contiguous 2 0 + number_of_sort sort }
    {
        Packed {
            span: span_of(run.lo, run.hi),
            tag: query * 4 + if contiguous { 2 } else { 0 } + sort as u32,
        }
    }

    // Where the string starts.
    pub fn start(self) -> Position
        ensures { result.0 ≡ (str_packed self).start }
    {
        start_of(self.span)
    }

    // Where it ends.
    pub fn end(self) -> Position
        ensures { result.0 ≡ (str_packed self).end }
    {
        end_of(self.span)
    }

    // The positions that it covers.
    pub fn run(self) -> Run
        ensures lo_value { result.lo.0 ≡ (str_packed self).start }
        ensures hi_value { result.hi.0 ≡ (str_packed self).end }
    {
        Run {
            lo: self.start(),
            hi: self.end(),
        }
    }

    // Its query position.
    pub fn query(self) -> u32
        ensures { result ≡ (str_packed self).query }
    {
        self.tag / 4
    }

    // Its contiguous mark.
    pub fn is_contiguous(self) -> bool
        ensures { result ≡ (str_packed self).contiguous }
    {
        self.tag / 2 % 2 == 1
    }

    // Its sort.
    pub fn sort(self) -> Sort
        ensures { number_of_sort result ≡ self.tag % 2 }
    {
        if self.tag % 2 == 0 {
            Sort::Include
        } else {
            Sort::Exclude
        }
    }

    // The string, turned to a sort.
    pub fn with_sort(self, sort: Sort) -> Packed
        ensures span_value { result.span ≡ self.span }
        ensures tag_value { result.tag ≡ self.tag / 2 * 2 + number_of_sort sort }
    {
        Packed {
            span: self.span,
            tag: self.tag / 2 * 2 + sort as u32,
        }
    }
}

// The strings that a slice has left.
#[derive(Drop)]
pub struct Strings<'a> {
    rest: &'a [u32],
}

impl<'a> Model for Strings<'a> {
    ghost Value = { List Str };

    ghost view = { λ s. strs_at s.rest.now };
}

// The strings of a slice, in order; a last number alone is none.
pub fn strings_in<'a>(numbers: &'a [u32]) -> Strings<'a>
    ensures { result ≡ strs_at numbers.now }
{
    Strings { rest: numbers }
}

impl<'a> Strings<'a> {
    // The numbers that are left.
    pub fn as_slice(&self) -> &'a [u32]
        ensures { strs_at result.now ≡ self.now }
    {
        self.rest
    }
}

impl<'a> Iterator for Strings<'a> {
    type Item = Packed;

    ghost remaining = { item_count (λ s. s) };

    ghost next_gives = { YieldsFirstBy str_packed (λ s. s) };

    fn next(&mut self) -> Option<Packed> {
        let [span, tag, rest @ ..] = self.rest else {
            return None;
        };
        self.rest = rest;
        Some(Packed {
            span: *span,
            tag: *tag,
        })
    }
}
