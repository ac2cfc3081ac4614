// Numbers copied within memory.
ghost use Rattle.std.specs.Prelude.{◌≡◌, length};
ghost use Rattle.std.specs.List.{copy_within};
ghost use Rattle.store.specs.Indices.{CopyUp};

use std::ops::Range;

// Copies numbers to an index above them. Not by the library's copy_within: matches are short, and with its choice of a direction an `and` of 16 by 16 takes
// a seventh more instructions.
pub fn copy_up(mem: &mut [u32], part: Range<usize>, to: usize)
    requires { CopyUp (length mem.old) part.start part.end to }
    ensures { mem.new ≡ copy_within mem.old part.start part.end to }
{
    for i in 0..part.end - part.start {
        mem[to + i] = mem[part.start + i];
    }
}
