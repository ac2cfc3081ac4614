// Blocks of sixteen numbers, each looked at as a whole: no turn of the loop over a block depends on what the turns before it found, so that it becomes vector
// instructions.
ghost use Rattle.std.specs.Prelude.{ℕ, false, ◌≡◌, ◌+◌, ◌^◌, ◌<◌, ◌≤◌, length};
ghost use Rattle.slices.specs.Blocks.{BlocksPassed, Lacks, block_size};

// The numbers of a block.
pub const BLOCK_SIZE: usize = 16;

// Does the test pass at any of the sixteen offsets of a block?
pub fn block_has<F: Fn(usize) -> bool>(test: F) -> bool
    requires { (i : ℕ) → i < block_size → F.pre test i }
    ensures { result ≡ false → (i : ℕ) → i < block_size → F.post test i false }
{
    let mut found = false;
    for i in 0..BLOCK_SIZE {
        found = found | test(i);
    }
    found
}

// Does the number stand anywhere in the block at an index?
pub fn has_number(lent: &[u32], at: usize, number: u32) -> bool
    requires { at + block_size ≤ length lent.now }
    ensures { result ≡ false → Lacks lent.now at number block_size }
{
    block_has(|i| lent[at + i] == number)
}

// Passes the blocks from `from` on of which the test says no, up to the first of which it says yes, or to the last that ends at or before `to`.
#[tactic(auto, using(crate::proofs::BlocksLaws::passed_more))]
pub fn pass_blocks<F: Fn(usize) -> bool>(from: usize, to: usize, test: F) -> usize
    requires in_order { from ≤ to }
    requires fits { to + block_size < 2 ^ 64 }
    requires callable { (p : ℕ) → from ≤ p → p + block_size ≤ to → F.pre test p }
    ensures { BlocksPassed (λ p. F.post test p false) from to result }
{
    let mut p = from;
    while p + BLOCK_SIZE <= to && !test(p) {
        p += BLOCK_SIZE;
    }
    p
}
