// A typed search: its codes as a selection.

#![tactic(auto)]

pub mod rules; // the rules that call each other

ghost use Rattle.std.specs.Prelude.{◌≡◌, ℕ, ◌≤◌, length, suc};
ghost use Rattle.std.proofs.lemmas.List.Edits.{sets};
ghost use Rattle.grammar.specs.Grammar.{◌then◌, expect, ft_selection, read_text};
ghost use Rattle.grammar.specs.Symbols.{no_more};
ghost use Rattle.lent_text.specs.State.{left, stream_of};
ghost use Rattle.flat_rules.specs.Answers.{Says};
ghost use Rattle.reader.specs.Selections.{put_down, reading_of, typed_numbers};

use lent_text::Reader;
use lent_text::codes::Codes;
use model::{MAX_CODES, MAX_TEXT, Reading, Reason, Refusal};
use scanner::symbols::Symbol;

// The whole text: FTSelection, and the end after it.
fn whole(reader: &mut Reader) -> Result<(), Refusal>
    ensures { (n : ℕ) → left reader.old ≤ n → Says (ft_selection (suc n) (stream_of reader.old) then expect no_more) reader.old reader.new result }
{
    rules::selection(reader)?;
    if reader.symbol() != Symbol::NoMore {
        return Err(reader.unexpected());
    }
    Ok(())
}

// Codes as a selection: "m, m kinds, m operands". Of over 64 codes their number alone is put down.
fn put(codes: &Codes, selection: &mut [u32])
    requires { 129 ≤ length selection.old }
    ensures { selection.new ≡ sets selection.old 0 (put_down codes.now) }
{
    selection[0] = codes.count;
    if codes.count <= MAX_CODES {
        let m = codes.count as usize;
        selection[1..1 + m].copy_from_slice(&codes.kinds[..m]);
        selection[1 + m..1 + 2 * m].copy_from_slice(&codes.operands[..m]);
    }
}

// The codes of a text as a selection.
pub fn read(text: &[u8], selection: &mut [u32]) -> Reading
    requires { 129 ≤ length selection.old }
    ensures value { result ≡ reading_of (read_text text.now) }
    ensures selection_after { selection.new ≡ sets selection.old 0 (typed_numbers (read_text text.now)) }
{
    if text.len() > MAX_TEXT {
        return Err(Refusal {
            reason: Reason::OverLimit,
            place: 0,
        });
    }
    let mut reader = Reader::over(text);
    whole(&mut reader)?;
    let codes = reader.codes();
    put(codes, selection);
    Ok(codes.count)
}
