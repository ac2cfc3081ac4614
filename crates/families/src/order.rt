// The first entry whose word isn't above the one before it: by blocks of sixteen, and entry by entry from a block on that has one.
ghost use Rattle.std.specs.Prelude.{false, ◌≡◌, ◌+◌, ◌<◌, length};
ghost use Rattle.model.specs.Checks.{entry_out_of_order};
ghost use Rattle.slices.specs.Blocks.{block_size};
ghost use Rattle.families.specs.Entries.{RisesFrom, TableSized};

use slices::blocks::{block_has, pass_blocks};

// Is any of the sixteen entries after entry p out of order?
fn block_falls(families: &[u32], p: usize) -> bool
    requires { p + block_size < length families.now }
    ensures { result ≡ false → RisesFrom families.now p block_size }
{
    block_has(|i| families[p + i + 1] <= families[p + i])
}

// The first entry out of order, of m entries.
pub fn first_out_of_order(families: &[u32], m: usize) -> Option<u32>
    requires { TableSized families.now m }
    ensures { result ≡ entry_out_of_order families.now }
{
    let begin = pass_blocks(1, m.max(1), |p| block_falls(families, p));
    let before = (begin..m).find(|p| families[*p + 1] <= families[*p])?;
    Some(before as u32 + 1)
}
