// The calls of `jullpinay` for C and Rust, under the same names: numbers pass as themselves, a slice as a pointer and a length.

#![tactic(auto)]

ghost use Rattle.std.specs.Prelude.{◌≡◌, drop, get_or, length, take};
ghost use Rattle.std.proofs.lemmas.List.Edits.{sets};
ghost use Rattle.model.specs.Answers.{listing_answer, listing_buffer, listing_values, quick_answer, quick_values, snippet_of};
ghost use Rattle.model.specs.TextAnswer.{ForAnswer};
ghost use Rattle.model.specs.Typed.{read_answer, read_selection, reading_values, typed_buffer, typed_listing, typed_quick};

// The full listing. The answer is 0, M, S and 1 for yes or 0 for no; or a refusal's number and place, with the rest of it unchanged.
#[unsafe(no_mangle)]
pub extern "C" fn jullpinay_listing(
    section: &[u32],
    families: &[u32],
    selection: &[u32],
    work: &mut [u32],
    buffer: &mut [u32],
    answer: &mut [u32; 4],
) -> u32
    ensures value { result ≡ get_or (listing_values (listing_answer section.now families.now selection.now (length work.old) (length buffer.old))) 0 0 }
    ensures answer_after { answer.new ≡ sets answer.old 0 (listing_values (listing_answer section.now families.now selection.now (length work.old) (length buffer.old))) }
    ensures buffer_after { buffer.new ≡ listing_buffer section.now families.now selection.now (length work.old) buffer.old }
{
    jullpinay::jullpinay_listing(section, families, selection, work, buffer, answer)
}

// The quick answer. The answer is 0, 1 for yes or 0 for no, and the count of codes; or a refusal's number and place, with the rest of it unchanged.
#[unsafe(no_mangle)]
pub extern "C" fn jullpinay_quick(
    section: &[u32],
    families: &[u32],
    selection: &[u32],
    work: &mut [u32],
    answer: &mut [u32; 3],
) -> u32
    ensures value { result ≡ get_or (quick_values (quick_answer section.now families.now selection.now (length work.old))) 0 0 }
    ensures answer_after { answer.new ≡ sets answer.old 0 (quick_values (quick_answer section.now families.now selection.now (length work.old))) }
{
    jullpinay::jullpinay_quick(section, families, selection, work, answer)
}

// The snippet's length. It stands in the section from the index `from` on.
#[unsafe(no_mangle)]
pub extern "C" fn jullpinay_snippet(section: &[u32], from: u32, to: u32) -> usize
    ensures value { result ≡ length (snippet_of section.now from to) }
    ensures section_value { take result (drop from section.now) ≡ snippet_of section.now from to }
{
    jullpinay::jullpinay_snippet(section, from, to)
}

// The full listing of a typed search, with the listing's answer; 10 and 11 are the text's errors.
#[unsafe(no_mangle)]
pub extern "C" fn jullpinay_typed_listing(
    section: &[u32],
    families: &[u32],
    text: &[u8],
    work: &mut [u32],
    buffer: &mut [u32],
    answer: &mut [u32; 4],
) -> u32
    ensures for_answer { ForAnswer text.now (λ a. result ≡ get_or (listing_values (typed_listing section.now families.now a (length work.old) (length buffer.old))) 0 0) }
    ensures for_answer_2 { ForAnswer text.now (λ a. answer.new ≡ sets answer.old 0 (listing_values (typed_listing section.now families.now a (length work.old) (length buffer.old)))) }
    ensures for_answer_3 { ForAnswer text.now (λ a. buffer.new ≡ typed_buffer section.now families.now a (length work.old) buffer.old) }
{
    jullpinay::jullpinay_typed_listing(section, families, text, work, buffer, answer)
}

// The quick answer of a typed search, with the quick answer's; 10 and 11 are the text's errors.
#[unsafe(no_mangle)]
pub extern "C" fn jullpinay_typed_quick(
    section: &[u32],
    families: &[u32],
    text: &[u8],
    work: &mut [u32],
    answer: &mut [u32; 3],
) -> u32
    ensures for_answer { ForAnswer text.now (λ a. result ≡ get_or (quick_values (typed_quick section.now families.now a (length work.old))) 0 0) }
    ensures for_answer_2 { ForAnswer text.now (λ a. answer.new ≡ sets answer.old 0 (quick_values (typed_quick section.now families.now a (length work.old)))) }
{
    jullpinay::jullpinay_typed_quick(section, families, text, work, answer)
}

// The reader alone: a typed search's codes as a selection. The answer is 0 and the number of codes; or a refusal's number and place.
#[unsafe(no_mangle)]
pub extern "C" fn jullpinay_read(text: &[u8], selection: &mut [u32], answer: &mut [u32; 2]) -> u32
    ensures for_answer { ForAnswer text.now (λ a. result ≡ get_or (reading_values (read_answer a (length selection.old))) 0 0) }
    ensures for_answer_2 { ForAnswer text.now (λ a. answer.new ≡ sets answer.old 0 (reading_values (read_answer a (length selection.old)))) }
    ensures for_answer_3 { ForAnswer text.now (λ a. selection.new ≡ read_selection a selection.old) }
{
    jullpinay::jullpinay_read(text, selection, answer)
}
