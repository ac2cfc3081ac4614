// "a line a match", from the numbers of the listing buffer: a count for each match, then its strings' spans and tags.
ghost use mathlib.Core.List.{flat_map};
ghost use Rattle.std.specs.Prelude.{◌+◌, ◌≤◌, length};
ghost use Rattle.store.specs.Put.{Put};
ghost use Rattle.text.specs.Decoded.{LinesAt, StringsAt, matches_at, text_of, texts_at};
ghost use Rattle.text.specs.Printed.{after_blank, line_of};

use super::texts::put_string;
use super::words::{put_byte, put_word};
use strings::Packed;

// A string after a blank.
fn put_later_string(string: Packed, text: &mut [u8], at: usize) -> usize
    requires { at + length (after_blank (text_of string.span string.tag)) ≤ length text.old }
    ensures { Put text.old text.new at (after_blank (text_of string.span string.tag)) result }
{
    let first = put_byte(b' ', text, at);
    put_string(string, text, first)
}

// n strings, each after a blank: their spans from s on, their tags from t on.
fn put_later_strings(
    buffer: &[u32],
    s: usize,
    t: usize,
    n: usize,
    text: &mut [u8],
    at: usize,
) -> usize
    requires strings_at { StringsAt (length buffer.now) s t n }
    requires n_in_bounds { at + length (flat_map after_blank (texts_at buffer.now s t n)) ≤ length text.old }
    ensures { Put text.old text.new at (flat_map after_blank (texts_at buffer.now s t n)) result }
{
    let mut q = at;
    for i in 0..n {
        let string = Packed {
            span: buffer[s + i],
            tag: buffer[t + i],
        };
        q = put_later_string(string, text, q);
    }
    q
}

// The line of a match with n strings: "strings parted by a blank, `.` for a match with none".
fn put_line(buffer: &[u32], s: usize, t: usize, n: usize, text: &mut [u8], at: usize) -> usize
    requires strings_at { StringsAt (length buffer.now) s t n }
    requires n_in_bounds { at + length (line_of (texts_at buffer.now s t n)) ≤ length text.old }
    ensures { Put text.old text.new at (line_of (texts_at buffer.now s t n)) result }
{
    if n == 0 {
        return put_word(b".\n", text, at);
    }
    let string = Packed {
        span: buffer[s],
        tag: buffer[t],
    };
    let later = put_string(string, text, at);
    let end = put_later_strings(buffer, s + 1, t + 1, n - 1, text, later);
    put_byte(b'\n', text, end)
}

// The lines of n matches: their counts from c on, their strings' spans from s on, tags from t on.
pub fn put_lines(
    buffer: &[u32],
    c: usize,
    s: usize,
    t: usize,
    n: usize,
    text: &mut [u8],
    at: usize,
) -> usize
    requires lines_at { LinesAt buffer.now c s t n }
    requires n_in_bounds { at + length (flat_map line_of (matches_at buffer.now c s t n)) ≤ length text.old }
    ensures { Put text.old text.new at (flat_map line_of (matches_at buffer.now c s t n)) result }
{
    let mut span = s;
    let mut tag = t;
    let mut q = at;
    for i in 0..n {
        let strings = buffer[c + i] as usize;
        q = put_line(buffer, span, tag, strings, text, q);
        span += strings;
        tag += strings;
    }
    q
}
