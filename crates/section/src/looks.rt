// The first faulty position, in one pass: block by block, and closely where a block is unclear.
ghost use Rattle.std.specs.Prelude.{ℕ, ◌≡◌, ◌+◌, ◌*◌, ◌<◌, ◌≤◌, length};
ghost use Rattle.model.specs.Checks.{faulty_position};
ghost use Rattle.model.specs.Limits.{max_tokens};
ghost use Rattle.model.specs.Section.{size};
ghost use Rattle.section.specs.Looks.{LookGiven, looked_at};

use super::order::{is_faulty, last_after};
use super::places::Places;
use model::Sentence;

// How many positions are looked at together, and how many where they have to be looked at more closely.
const BLOCK: usize = 64;

const SMALL_BLOCK: usize = 16;

// What a look at some positions tells: the last nonzero sentence up to their end, where none is faulty; else the first that is.
type Look = Result<Sentence, u32>;

impl<'a> Places<'a> {
    // The positions after `from` up to `to`, one by one.
    fn scan(&self, from: usize, to: usize, before: Sentence) -> Look
        requires { LookGiven self.now.section.now from to before.0 }
        ensures { result ≡ looked_at self.now.section.now from to }
    {
        let mut last = before;
        for p in from..to {
            let here = self.at(p + 1);
            if is_faulty(self.at(p), here, last) {
                return Err(p as u32 + 1);
            }
            last = last_after(last, here.sentence());
        }
        Ok(last)
    }

    // The positions after `from` up to `to`: so many together, and closely where that doesn't tell.
    fn look<const BLOCK: usize, F: Fn(usize, usize, Sentence) -> Look>(
        &self,
        from: usize,
        to: usize,
        before: Sentence,
        closely: F,
    ) -> Look
        requires some { 1 ≤ BLOCK }
        requires given { LookGiven self.now.section.now from to before.0 }
        requires callable { (p q : ℕ) (last : _) → LookGiven self.now.section.now p q last.0 → F.pre closely p q last }
        requires told { (p q : ℕ) (last : _) (look : _) → LookGiven self.now.section.now p q last.0 → F.post closely p q last look
            → look ≡ looked_at self.now.section.now p q }
        ensures { result ≡ looked_at self.now.section.now from to }
    {
        let mut last = before;
        let mut p = from;
        // a block at a time
        while p < to {
            let end = p + BLOCK.min(to - p);
            last = if self.is_faultless(p, end, last) {
                last_after(last, self.at(end).sentence())
            } else {
                closely(p, end, last)?
            };
            p = end;
        }
        Ok(last)
    }

    // By small blocks, and one by one.
    fn look_closely(&self, from: usize, to: usize, before: Sentence) -> Look
        requires { LookGiven self.now.section.now from to before.0 }
        ensures { result ≡ looked_at self.now.section.now from to }
    {
        self.look::<SMALL_BLOCK, _>(from, to, before, |p, q, last| self.scan(p, q, last))
    }
}

// The first faulty position of a section with n tokens and a length that is right.
pub fn first_faulty(section: &[u32], n: usize) -> Option<u32>
    requires n_value { n ≡ size section.now }
    requires n_le_max_tokens { (n ≤ max_tokens) × (length section.now ≡ 1 + 2 * n) }
    ensures { result ≡ faulty_position section.now }
{
    if n == 0 {
        return None;
    }
    let places = Places { section, n };
    let first = places.at(1).sentence();
    places
        .look::<BLOCK, _>(1, n, first, |p, q, last| places.look_closely(p, q, last))
        .err()
}
