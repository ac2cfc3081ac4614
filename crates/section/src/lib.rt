// A section: what its slice says at a position, its check, and the snippet. Every function here takes any slice.

#![tactic(auto)]

mod looks;
mod order;
mod places;
mod rises;

ghost use Rattle.std.specs.Prelude.{◌≡◌};
ghost use Rattle.model.specs.Answers.{checked_of, snippet_of, snippet_start, stands_at};
ghost use Rattle.model.specs.Checks.{section_refusal};
ghost use Rattle.model.specs.Section.{paragraph_at, sentence_at, size, word_at};

use model::{MAX_TOKENS, Paragraph, Position, Reason, Refusal, Sentence};
use order::Place;

// The word at a position.
pub fn word_at(section: &[u32], p: Position) -> u32
    ensures { result ≡ word_at section.now p.0 }
{
    slices::number_at(section, p.0 as usize)
}

// The sentence of the token at a position.
pub fn sentence_at(section: &[u32], p: Position) -> Sentence
    ensures { result.0 ≡ sentence_at section.now p.0 }
{
    Place(slices::second_at(section, p.0)).sentence()
}

// The paragraph of the token at a position.
pub fn paragraph_at(section: &[u32], p: Position) -> Paragraph
    ensures { result.0 ≡ paragraph_at section.now p.0 }
{
    Place(slices::second_at(section, p.0)).paragraph()
}

// Refusals 1 and 2, with their places; else the number of tokens.
pub fn check_section(section: &[u32]) -> Result<u32, Refusal>
    ensures { result ≡ checked_of (size section.now) (section_refusal section.now) }
{
    Reason::WrongSection.refuse_unless(slices::well_sized(section, 0, MAX_TOKENS))?;
    let n = section[0];
    Reason::FaultyPosition.refuse_at(looks::first_faulty(section, n as usize))?;
    Ok(n)
}

// The words of the positions from `from` to `to`, as a part of the section; an empty part where it isn't accepted or has no such positions.
pub fn snippet(section: &[u32], from: Position, to: Position) -> &[u32]
    ensures result_value { result.now ≡ snippet_of section.now from.0 to.0 }
    ensures ref_ptr_value { result.ref_ptr ≡ stands_at section.entry.ref_ptr (snippet_start section.now from.0 to.0) }
{
    match check_section(section) {
        Ok(n) if 1 <= from.0 && from <= to && to.0 <= n => &section[from.0 as usize..to.0 as usize
            + 1],
        _ => &section[..0],
    }
}
