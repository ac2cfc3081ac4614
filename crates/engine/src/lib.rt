// The engine's calls: document 01's, and those of typed searches. None has a requires: any slices of any lengths may come in, and each gets a result or
// one refusal. A typed call answers by the answer that its text has; every text has exactly one (theorems/specs/Requests.antt).

#![tactic(auto)]

ghost use Rattle.std.specs.Prelude.{◌≡◌, length};
ghost use Rattle.model.specs.Answers.{listing_values, quick_values};
ghost use Rattle.model.specs.TextAnswer.{ForAnswer};
ghost use Rattle.model.specs.Typed.{read_answer, read_selection, reading_values, typed_buffer, typed_listing, typed_quick};
ghost use Rattle.reader.specs.Selections.{typed_size};

pub use calls::{listing, quick, snippet};
use model::{Listing, MAX_CODES, Quick, Reading, Reason, SELECTION_LENGTH};

// How many numbers the reader puts down of so many codes: a selection's, or where they are over 64 their number alone, on which refusal 3 falls.
fn typed_size(codes: u32) -> usize
    ensures { result ≡ typed_size codes }
{
    if codes <= MAX_CODES {
        1 + 2 * codes as usize
    } else {
        1
    }
}

// The reader alone. The selection then holds the codes; the rest of it is unchanged, and all of it by a refusal.
pub fn read(text: &[u8], selection: &mut [u32]) -> Reading
    ensures for_answer { ForAnswer text.now (λ a. result ≡ read_answer a (length selection.old)) }
    ensures for_answer_2 { ForAnswer text.now (λ a. reading_values result ≡ reading_values (read_answer a (length selection.old))) }
    ensures for_answer_3 { ForAnswer text.now (λ a. selection.new ≡ read_selection a selection.old) }
{
    let mut own = [0; 129];
    let codes = reader::read(text, &mut own)?;
    Reason::WrongSelection.refuse_unless(codes <= MAX_CODES)?;
    Reason::ShortMemory.refuse_unless(SELECTION_LENGTH <= selection.len())?;
    slices::copy(&own[..typed_size(codes)], selection);
    Ok(codes)
}

// The full listing of a typed search: the text's error, or what the listing answers for its codes. Not by `?`, since a listing's answer is an enum.
pub fn typed_listing(
    section: &[u32],
    families: &[u32],
    text: &[u8],
    work: &mut [u32],
    buffer: &mut [u32],
) -> Listing
    ensures for_answer { ForAnswer text.now (λ a. result ≡ typed_listing section.now families.now a (length work.old) (length buffer.old)) }
    ensures for_answer_2 { ForAnswer text.now (λ a. listing_values result ≡ listing_values (typed_listing section.now families.now a (length work.old) (length buffer.old))) }
    ensures for_answer_3 { ForAnswer text.now (λ a. buffer.new ≡ typed_buffer section.now families.now a (length work.old) buffer.old) }
{
    let mut selection = [0; 129];
    match reader::read(text, &mut selection) {
        Ok(codes) => listing(
            section,
            families,
            &selection[..typed_size(codes)],
            work,
            buffer,
        ),
        Err(refusal) => Listing::Refused(refusal),
    }
}

// The quick answer of a typed search: the text's error, or what the quick answer is for its codes.
pub fn typed_quick(section: &[u32], families: &[u32], text: &[u8], work: &mut [u32]) -> Quick
    ensures for_answer { ForAnswer text.now (λ a. result ≡ typed_quick section.now families.now a (length work.old)) }
    ensures for_answer_2 { ForAnswer text.now (λ a. quick_values result ≡ quick_values (typed_quick section.now families.now a (length work.old))) }
{
    let mut selection = [0; 129];
    let codes = reader::read(text, &mut selection)?;
    quick(section, families, &selection[..typed_size(codes)], work)
}
