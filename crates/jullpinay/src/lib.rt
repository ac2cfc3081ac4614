// The engine's calls with their answers as the papers' own numbers. `jullpinay_c` exports them to C and Rust.

#![tactic(auto)]

ghost use Rattle.std.specs.Prelude.{◌≡◌, ◌≤◌, drop, get_or, length, take};
ghost use Rattle.std.proofs.lemmas.List.Edits.{sets};
ghost use Rattle.model.specs.Answers.{listing_answer, listing_buffer, listing_values, quick_answer, quick_values, snippet_of};
ghost use Rattle.model.specs.Checks.{number_of, refusal_values};
ghost use Rattle.model.specs.TextAnswer.{ForAnswer};
ghost use Rattle.model.specs.Typed.{read_answer, read_selection, reading_values, typed_buffer, typed_listing, typed_quick};

use model::{Listing, Position, Quick, Reading, Refusal};

// A refusal put down in the papers' numbers, its number first, which is returned too. What is after them is unchanged.
fn put_refusal(refusal: Refusal, answer: &mut [u32]) -> u32
    requires { 2 ≤ length answer.old }
    ensures value { result ≡ number_of refusal.reason }
    ensures answer_after { answer.new ≡ sets answer.old 0 (refusal_values refusal) }
{
    let number = u32::from(refusal.reason);
    answer[0] = number;
    answer[1] = refusal.place;
    number
}

// A listing's answer put down in the papers' numbers; each call's answer has an array of its own length in C. Returned is the first
// of them: 0, or the refusal's number.
fn put_listing(listing: Listing, answer: &mut [u32; 4]) -> u32
    ensures value { result ≡ get_or (listing_values listing) 0 0 }
    ensures answer_after { answer.new ≡ sets answer.old 0 (listing_values listing) }
{
    match listing {
        Listing::Listed {
            matches,
            strings,
            yes,
        } => {
            *answer = [0, matches, strings, u32::from(yes)];
            0
        }
        Listing::Refused(refusal) => put_refusal(refusal, answer),
    }
}

// The full listing. The answer is 0, M, S and 1 for yes or 0 for no; or a refusal's number and place, with the rest of it unchanged.
pub fn jullpinay_listing(
    section: &[u32],
    families: &[u32],
    selection: &[u32],
    work: &mut [u32],
    buffer: &mut [u32],
    answer: &mut [u32; 4],
) -> u32
    ensures value { result ≡ get_or (listing_values (listing_answer section.now families.now selection.now (length work.old) (length buffer.old))) 0 0 }
    ensures answer_after { answer.new ≡ sets answer.old 0 (listing_values (listing_answer section.now families.now selection.now (length work.old) (length buffer.old))) }
    ensures buffer_after { buffer.new ≡ listing_buffer section.now families.now selection.now (length work.old) buffer.old }
{
    let listing = engine::listing(section, families, selection, work, buffer);
    put_listing(listing, answer)
}

// A quick answer put down in the papers' numbers. Returned is the first of them: 0, or the refusal's number.
fn put_quick(quick: Quick, answer: &mut [u32; 3]) -> u32
    ensures value { result ≡ get_or (quick_values quick) 0 0 }
    ensures answer_after { answer.new ≡ sets answer.old 0 (quick_values quick) }
{
    match quick {
        Ok(answered) => {
            *answer = [0, u32::from(answered.yes), answered.codes];
            0
        }
        Err(refusal) => put_refusal(refusal, answer),
    }
}

// The quick answer. The answer is 0, 1 for yes or 0 for no, and the count of codes; or a refusal's number and place, with the rest of it unchanged.
pub fn jullpinay_quick(
    section: &[u32],
    families: &[u32],
    selection: &[u32],
    work: &mut [u32],
    answer: &mut [u32; 3],
) -> u32
    ensures value { result ≡ get_or (quick_values (quick_answer section.now families.now selection.now (length work.old))) 0 0 }
    ensures answer_after { answer.new ≡ sets answer.old 0 (quick_values (quick_answer section.now families.now selection.now (length work.old))) }
{
    let quick = engine::quick(section, families, selection, work);
    put_quick(quick, answer)
}

// The snippet's length. It stands in the section from the index `from` on.
pub fn jullpinay_snippet(section: &[u32], from: u32, to: u32) -> usize
    ensures value { result ≡ length (snippet_of section.now from to) }
    ensures section_value { take result (drop from section.now) ≡ snippet_of section.now from to }
{
    let part = engine::snippet(section, Position(from), Position(to));
    part.len()
}

// The full listing of a typed search, with the listing's answer; 10 and 11 are the text's errors.
pub fn jullpinay_typed_listing(
    section: &[u32],
    families: &[u32],
    text: &[u8],
    work: &mut [u32],
    buffer: &mut [u32],
    answer: &mut [u32; 4],
) -> u32
    ensures for_answer { ForAnswer text.now (λ a. result ≡ get_or (listing_values (typed_listing section.now families.now a (length work.old) (length buffer.old))) 0 0) }
    ensures for_answer_2 { ForAnswer text.now (λ a. answer.new ≡ sets answer.old 0 (listing_values (typed_listing section.now families.now a (length work.old) (length buffer.old)))) }
    ensures for_answer_3 { ForAnswer text.now (λ a. buffer.new ≡ typed_buffer section.now families.now a (length work.old) buffer.old) }
{
    let listing = engine::typed_listing(section, families, text, work, buffer);
    put_listing(listing, answer)
}

// The quick answer of a typed search, with the quick answer's; 10 and 11 are the text's errors.
pub fn jullpinay_typed_quick(
    section: &[u32],
    families: &[u32],
    text: &[u8],
    work: &mut [u32],
    answer: &mut [u32; 3],
) -> u32
    ensures for_answer { ForAnswer text.now (λ a. result ≡ get_or (quick_values (typed_quick section.now families.now a (length work.old))) 0 0) }
    ensures for_answer_2 { ForAnswer text.now (λ a. answer.new ≡ sets answer.old 0 (quick_values (typed_quick section.now families.now a (length work.old)))) }
{
    let quick = engine::typed_quick(section, families, text, work);
    put_quick(quick, answer)
}

// A reader's answer put down in numbers. Returned is the first of them: 0, or the refusal's number.
fn put_reading(reading: Reading, answer: &mut [u32; 2]) -> u32
    ensures value { result ≡ get_or (reading_values reading) 0 0 }
    ensures answer_after { answer.new ≡ sets answer.old 0 (reading_values reading) }
{
    match reading {
        Ok(codes) => {
            *answer = [0, codes];
            0
        }
        Err(refusal) => put_refusal(refusal, answer),
    }
}

// The reader alone: a typed search's codes as a selection. The answer is 0 and the number of codes; or a refusal's number and place.
pub fn jullpinay_read(text: &[u8], selection: &mut [u32], answer: &mut [u32; 2]) -> u32
    ensures for_answer { ForAnswer text.now (λ a. result ≡ get_or (reading_values (read_answer a (length selection.old))) 0 0) }
    ensures for_answer_2 { ForAnswer text.now (λ a. answer.new ≡ sets answer.old 0 (reading_values (read_answer a (length selection.old)))) }
    ensures for_answer_3 { ForAnswer text.now (λ a. selection.new ≡ read_selection a selection.old) }
{
    let reading = engine::read(text, selection);
    put_reading(reading, answer)
}
