// The program `ftlist` as a function on slices: from the bytes that it reads to the bytes that it prints.
ghost use Rattle.std.specs.Prelude.{[], ◌≡◌, ◌≤◌, length, take};
ghost use Rattle.model.specs.declared.Reason.TheVariants.{WrongSection};
ghost use Rattle.model.specs.Checks.{refusal};
ghost use Rattle.model.specs.declared.Listing.TheVariants.{Refused};
ghost use Rattle.text.specs.Input.{listing_of, max_numbers, program_text, section_part, selection_part};
ghost use Rattle.text.specs.Printable.{text_length};
ghost use Rattle.text.specs.Printed.{listing_text};
ghost use Rattle.ftlist.specs.Lent.{Lent};

use model::{Listing, Reason, Refusal};

// "prints `refused 1 0`"
fn print_refusal(buffer: &[u32], text: &mut [u8]) -> usize
    requires { text_length ≤ length text.old }
    ensures text_after { take result text.new ≡ listing_text (Refused (refusal WrongSection 0)) [] }
    ensures upper_bound { result ≤ length text.new }
{
    let answer = Listing::Refused(Refusal {
        reason: Reason::WrongSection,
        place: 0,
    });
    text::put_listing_text(answer, buffer, text)
}

// The full listing of a section and a selection, printed.
fn print_listing(
    section: &[u32],
    selection: &[u32],
    work: &mut [u32],
    buffer: &mut [u32],
    text: &mut [u8],
) -> usize
    requires { Lent work.old buffer.old text.old }
    ensures text_after { take result text.new ≡ listing_of section.now selection.now }
    ensures upper_bound { result ≤ length text.new }
{
    // the empty family table
    let families = [0u32; 1];
    let answer = calls::listing(section, &families, selection, work, buffer);
    text::put_listing_text(answer, buffer, text)
}

// "the section's 1 + 2n numbers (all, if fewer) and then the selection"
fn print_numbers(numbers: &[u32], work: &mut [u32], buffer: &mut [u32], text: &mut [u8]) -> usize
    requires { Lent work.old buffer.old text.old }
    ensures text_after { take result text.new ≡ listing_of (section_part numbers.now) (selection_part numbers.now) }
    ensures upper_bound { result ≤ length text.new }
{
    let k = text::section_length(numbers);
    print_listing(&numbers[..k], &numbers[k..], work, buffer, text)
}

// What `ftlist` prints for what it reads: so many bytes at the front of `text`. `numbers` has room for 65,536 bytes' worth.
pub fn run(
    input: &[u8],
    numbers: &mut [u32],
    work: &mut [u32],
    buffer: &mut [u32],
    text: &mut [u8],
) -> usize
    requires max_numbers_in_bounds { max_numbers ≤ length numbers.old }
    requires lent { Lent work.old buffer.old text.old }
    ensures text_after { take result text.new ≡ program_text input.now }
    ensures upper_bound { result ≤ length text.new }
{
    if text::MAX_INPUT < input.len() {
        return print_refusal(buffer, text);
    }
    if input.len() % 4 != 0 {
        return print_refusal(buffer, text);
    }
    let n = text::read_numbers(input, numbers);
    print_numbers(&numbers[..n], work, buffer, text)
}
