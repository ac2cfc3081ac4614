// The text of a string: its sort, its span, and where it stands in the query.
ghost use Rattle.std.specs.Prelude.{◌≡◌, ◌+◌, ◌≤◌, length};
ghost use Rattle.store.specs.Put.{Put};
ghost use Rattle.strings.specs.Strings.{number_of_sort};
ghost use Rattle.text.specs.Decoded.{text_of};
ghost use Rattle.text.specs.Printed.{contiguous_mark, query_text, sort_mark, span_text};

use super::words::{put_byte, put_decimal, put_word};
use strings::{Packed, Run, Sort};

// "+ include or ! exclude"
fn sort_mark(sort: Sort) -> u8
    ensures { result ≡ sort_mark (number_of_sort sort) }
{
    match sort {
        Sort::Include => b'+',
        Sort::Exclude => b'!',
    }
}

// "c contiguous or n not"
fn contiguous_mark(contiguous: bool) -> u8
    ensures { result ≡ contiguous_mark contiguous }
{
    if contiguous { b'c' } else { b'n' }
}

// "span"
fn put_span(run: Run, text: &mut [u8], at: usize) -> usize
    requires { at + length (span_text run.lo.0 run.hi.0) ≤ length text.old }
    ensures { Put text.old text.new at (span_text run.lo.0 run.hi.0) result }
{
    let dash = put_decimal(run.lo.0, text, at);
    let end = put_byte(b'-', text, dash);
    put_decimal(run.hi.0, text, end)
}

// "query position, c contiguous or n not"
fn put_query(query: u32, contiguous: bool, text: &mut [u8], at: usize) -> usize
    requires { at + length (query_text query contiguous) ≤ length text.old }
    ensures { Put text.old text.new at (query_text query contiguous) result }
{
    let number = put_word(b" q", text, at);
    let blank = put_decimal(query, text, number);
    let mark = put_byte(b' ', text, blank);
    put_byte(contiguous_mark(contiguous), text, mark)
}

// "+ include or ! exclude, span, query position, c contiguous or n not"
pub fn put_string(string: Packed, text: &mut [u8], at: usize) -> usize
    requires { at + length (text_of string.span string.tag) ≤ length text.old }
    ensures { Put text.old text.new at (text_of string.span string.tag) result }
{
    let first = put_byte(sort_mark(string.sort()), text, at);
    let query = put_span(string.run(), text, first);
    put_query(string.query(), string.is_contiguous(), text, query)
}
