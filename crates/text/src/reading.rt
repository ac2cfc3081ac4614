// The numbers of standard input: little-endian u32, the section's and then the selection's.
ghost use Rattle.std.specs.Prelude.{◌≡◌, ◌+◌, ◌/◌, ◌<◌, ◌≤◌, length};
ghost use Rattle.std.proofs.lemmas.List.Edits.{sets};
ghost use Rattle.text.specs.Input.{number_at, numbers_of, section_part};

// The number of the four bytes from `at` on, the least significant first.
fn number_at(bytes: &[u8], at: usize) -> u32
    requires { at + 4 ≤ length bytes.now }
    ensures { result ≡ number_at bytes.now at }
{
    u32::from_le_bytes([bytes[at], bytes[at + 1], bytes[at + 2], bytes[at + 3]])
}

// Puts the numbers that the bytes are to the front of `numbers`, and answers how many they are. Fewer than four bytes at the end are left out.
pub fn read_numbers(bytes: &[u8], numbers: &mut [u32]) -> usize
    requires { length bytes.now / 4 ≤ length numbers.old }
    ensures numbers_after { numbers.new ≡ sets numbers.old 0 (numbers_of bytes.now) }
    ensures value { result ≡ length (numbers_of bytes.now) }
    ensures upper_bound { result ≤ length numbers.new }
{
    let n = bytes.len() / 4;
    for i in 0..n {
        numbers[i] = number_at(bytes, 4 * i);
    }
    n
}

// How many of the numbers are the section's: 1 + 2n, or all, if fewer. The selection is the rest.
pub fn section_length(numbers: &[u32]) -> usize
    ensures value { result ≡ length (section_part numbers.now) }
    ensures upper_bound { result ≤ length numbers.now }
{
    let n = slices::number_at(numbers, 0) as usize;
    numbers.len().min(1 + 2 * n)
}
