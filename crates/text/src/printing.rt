// An answer's text: "any refusal prints `refused`, number, place"; else "First the answer, M, S; then a line a match".
ghost use Rattle.std.specs.Prelude.{◌≡◌, ◌+◌, ◌≤◌, length};
ghost use Rattle.std.proofs.lemmas.List.Edits.{sets};
ghost use Rattle.store.specs.Put.{Put};
ghost use Rattle.text.specs.Decoded.{LinesAt, listed_text};
ghost use Rattle.text.specs.Printable.{Printable, text_length};
ghost use Rattle.text.specs.Printed.{answer_text, listing_text};

use super::lines::put_lines;
use super::words::put_head;
use model::Listing;

// The first line of a listing.
fn put_answer(said: bool, matches: u32, strings: u32, text: &mut [u8]) -> usize
    requires { text_length ≤ length text.old }
    ensures { Put text.old text.new 0 (answer_text said matches strings) result }
{
    if said {
        return put_head(b"yes ", matches, strings, text, 0);
    }
    put_head(b"no ", matches, strings, text, 0)
}

// A listing: its first line, and a line for each match.
fn put_listed(said: bool, matches: u32, strings: u32, buffer: &[u32], text: &mut [u8]) -> usize
    requires text_length_in_bounds { text_length ≤ length text.old }
    requires lines_at { LinesAt buffer.now 2 (2 + matches) (2 + matches + strings) matches }
    requires buffer_in_bounds { length (listed_text said matches strings buffer.now) ≤ length text.old }
    ensures { Put text.old text.new 0 (listed_text said matches strings buffer.now) result }
{
    let first = put_answer(said, matches, strings, text);
    let n = matches as usize;
    let spans = 2 + n;
    let tags = spans + strings as usize;
    put_lines(buffer, 2, spans, tags, n, text, first)
}

// Puts the text of an answer at the front of `text`, and answers how many bytes it has. The buffer holds the listing, if that is the answer.
pub fn put_listing_text(answer: Listing, buffer: &[u32], text: &mut [u8]) -> usize
    requires printable { Printable answer buffer.now }
    requires text_length_in_bounds { text_length ≤ length text.old }
    ensures text_after { (w : Printable answer buffer.now) → text.new ≡ sets text.old 0 (listing_text answer w.list) }
    ensures value { (w : Printable answer buffer.now) → result ≡ length (listing_text answer w.list) }
    ensures upper_bound { result ≤ length text.new }
{
    match answer {
        Listing::Refused(refusal) => {
            let number = u32::from(refusal.reason);
            put_head(b"refused ", number, refusal.place, text, 0)
        }
        Listing::Listed {
            matches,
            strings,
            yes,
        } => put_listed(yes, matches, strings, buffer, text),
    }
}
