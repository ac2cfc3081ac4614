// Document 01's calls. They take the check's answer apart by `let .. else`, the form that it names. None has a requires: any
// slices of any lengths may come in, and each gets a result or one refusal.

#![tactic(auto)]

ghost use Rattle.std.specs.Prelude.{◌≡◌, ◌≤◌, length};
ghost use Rattle.std.proofs.lemmas.List.Edits.{sets};
ghost use Rattle.model.specs.Answers.{listed as listed_of, listing_answer, listing_buffer, listing_numbers, listing_values, quick_answer, quick_values, snippet_of, snippet_start, stands_at};
ghost use Rattle.model.specs.Limits.{buffer_length};
ghost use Rattle.store.specs.Slot.{SlotAt};

use model::{Inputs, Listing, Position, Quick};

// The list in the first slot, put in the buffer and answered for.
fn listed(work: &[u32], buffer: &mut [u32]) -> Listing
    requires slot_at { SlotAt work.now 0 }
    requires buffer_length_in_bounds { buffer_length ≤ length buffer.old }
    ensures value { (w : SlotAt work.now 0) → result ≡ listed_of w.list }
    ensures buffer_after { (w : SlotAt work.now 0) → buffer.new ≡ sets buffer.old 0 (listing_numbers w.list) }
{
    listing_buffer::put_listing(work, 0, buffer);
    let size = store::size_at(work, 0);
    Listing::Listed {
        matches: size.matches,
        strings: size.strings,
        yes: store::is_yes(work, 0),
    }
}

// The full listing: "It answers M, S and yes or no, or a refusal with its place. The buffer then holds M, S, the M string counts, then two parallel
// arrays of S". Working memory may end holding anything.
pub fn listing(
    section: &[u32],
    families: &[u32],
    selection: &[u32],
    work: &mut [u32],
    buffer: &mut [u32],
) -> Listing
    ensures value { result ≡ listing_answer section.now families.now selection.now (length work.old) (length buffer.old) }
    ensures result_value { listing_values result ≡ listing_values (listing_answer section.now families.now selection.now (length work.old) (length buffer.old)) }
    ensures buffer_after { buffer.new ≡ listing_buffer section.now families.now selection.now (length work.old) buffer.old }
{
    let inputs = Inputs {
        section,
        families,
        selection,
    };
    let checked = checks::check_listing(&inputs, work.len(), buffer.len());
    let Ok(codes) = checked else {
        return Listing::Refused(checked.unwrap_err());
    };
    match build::build(&inputs, work, 0, codes, 1) {
        Ok(()) => listed(work, buffer),
        Err(refusal) => Listing::Refused(refusal),
    }
}

// The quick answer: "It reports how many codes of kind 1 to 15 it walked or built", and since F-3 of kinds 16 and 17. Working memory may end holding
// anything.
pub fn quick(section: &[u32], families: &[u32], selection: &[u32], work: &mut [u32]) -> Quick
    ensures value { result ≡ quick_answer section.now families.now selection.now (length work.old) }
    ensures result_value { quick_values result ≡ quick_values (quick_answer section.now families.now selection.now (length work.old)) }
{
    let inputs = Inputs {
        section,
        families,
        selection,
    };
    let checked = checks::check_quick(&inputs, work.len());
    let Ok(codes) = checked else {
        return Err(checked.unwrap_err());
    };
    walk::walk(&inputs, work, codes)
}

// The snippet: "the word numbers of those positions, as a part of the lent section".
pub fn snippet(section: &[u32], from: Position, to: Position) -> &[u32]
    ensures result_value { result.now ≡ snippet_of section.now from.0 to.0 }
    ensures ref_ptr_value { result.ref_ptr ≡ stands_at section.entry.ref_ptr (snippet_start section.now from.0 to.0) }
{
    section::snippet(section, from, to)
}
