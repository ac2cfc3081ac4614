// Lent slices of u32: a size first, then two parallel arrays. Any slice of any length may come in.

#![tactic(auto)]

pub mod blocks; // blocks of sixteen numbers

ghost use Rattle.std.specs.Prelude.{◌≡◌, ◌+◌, ◌*◌, ◌≤◌, get_or, length};
ghost use Rattle.std.proofs.lemmas.List.Edits.{sets};
ghost use Rattle.model.specs.Section.{second_at, well_sized};
ghost use Rattle.slices.specs.EverySecond.{every_second};

// The number at an index, 0 past the end.
pub fn number_at(lent: &[u32], i: usize) -> u32
    ensures { result ≡ get_or lent.now i 0 }
{
    lent.get(i).copied().unwrap_or(0)
}

// The number at a place of the second array, counted from 1.
pub fn second_at(lent: &[u32], place: u32) -> u32
    ensures { result ≡ second_at lent.now place }
{
    let first = number_at(lent, 0);
    number_at(lent, first as usize + place as usize)
}

// Is the size within the limits, and the length 1 + 2 × size?
#[tactic(auto, unfolding(model::specs::Section::well_sized))]
pub fn well_sized(lent: &[u32], least: u32, most: u32) -> bool
    ensures { result ≡ well_sized least most lent.now }
{
    let size = number_at(lent, 0);
    least <= size && size <= most && lent.len() == 1 + 2 * (size as usize)
}

// Copies every second of the numbers from `from` on, n of them, to the buffer from q on. By index: what `iter_mut` writes isn't known to a proof.
pub fn copy_every_second(mem: &[u32], from: usize, n: usize, buffer: &mut [u32], q: usize)
    requires { (from + 2 * n ≤ length mem.now + 1) × (q + n ≤ length buffer.old) }
    ensures { buffer.new ≡ sets buffer.old q (every_second mem.now from n) }
{
    for i in 0..n {
        buffer[q + i] = mem[from + 2 * i];
    }
}

// Copies a slice to the start of another.
pub fn copy(from: &[u32], to: &mut [u32])
    requires { length from.now ≤ length to.old }
    ensures { to.new ≡ sets to.old 0 from.now }
{
    to[..from.len()].copy_from_slice(from);
}
