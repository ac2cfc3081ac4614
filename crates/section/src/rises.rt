// Some positions at once: where neither number falls between them, none is faulty.
ghost use Rattle.std.specs.Prelude.{◌≡◌, ◌≤◌, true, not, ◌&&◌, ◌==◌};
ghost use Rattle.section.specs.Looks.{Faultless, LookGiven};
ghost use Rattle.section.specs.Rises.{SummedRises};

use super::places::Places;
use model::{RADIX, Sentence};

// Is the first number zero and the last one not?
fn rises_from_zero(first: u32, last: u32) -> bool
    ensures { result ≡ (first == 0 && not (last == 0)) }
{
    first == 0 && last != 0
}

impl<'a> Places<'a> {
    // How far the paragraph numbers rise between two positions: each place less the one before it, modulo 2^32, and of that the upper half, summed. No turn of
    // the loop depends on a fall, so that it becomes vector instructions.
    fn summed_rises(&self, from: usize, to: usize) -> u32
        requires { (from ≤ to) × (to ≤ self.now.n) }
        ensures { SummedRises self.now.section.now from to result }
    {
        let mut sum: u32 = 0;
        for p in from..to {
            let step = self.at(p + 1).0.wrapping_sub(self.at(p).0);
            sum += step / RADIX;
        }
        sum
    }

    // True only where no position after `from` up to `to` is faulty. The sum is short by 1 for each fall of the sentence number and over by 65,536 for each fall
    // of the place, and there are fewer falls than 65,536: where it is the rise from first to last, nothing falls. Numbers that never fall are zero beside
    // nonzero only if they rise from zero. Sentences may do that if none was nonzero before.
    pub fn is_faultless(&self, from: usize, to: usize, last: Sentence) -> bool
        requires { LookGiven self.now.section.now from to last.0 }
        ensures { result ≡ true → Faultless self.now.section.now from to }
    {
        let first = self.at(from);
        let end = self.at(to);
        self.summed_rises(from, to) + first.0 / RADIX == end.0 / RADIX
            && !rises_from_zero(first.0 / RADIX, end.0 / RADIX)
            && (last.0 == 0 || !rises_from_zero(first.0 % RADIX, end.0 % RADIX))
    }
}
