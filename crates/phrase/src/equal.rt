// The rows in which each word of a phrase equals its token.
ghost use Rattle.std.specs.Prelude.{false, ◌≡◌, ◌+◌, ◌*◌, ◌≤◌, length};
ghost use Rattle.model.specs.Families.{equal_words};
ghost use Rattle.model.specs.Limits.{max_tokens, max_waiting};
ghost use Rattle.model.specs.Rules.{stand_from};
ghost use Rattle.model.specs.Section.{size};
ghost use Rattle.slices.specs.Blocks.{block_size};
ghost use Rattle.phrase.specs.Blocks.{LacksPair};

use super::rows::Rows;
use slices::blocks::{block_has, has_number, pass_blocks};

#[derive(Clone, Copy)]
pub struct Equal<'a> {
    pub section: &'a [u32],
    pub words: &'a [u32],

    ghost sized: { length section.now ≡ 1 + 2 * size section.now },
    ghost few_tokens: { size section.now ≤ max_tokens },
    ghost few_words: { length words.now ≤ max_waiting },
}

// The same of a phrase of one word, where there is half as much to compare.
#[derive(Clone, Copy)]
pub struct OneEqual<'a> {
    pub rows: Equal<'a>,

    ghost one: { length rows.words.now ≡ 1 },
}

// Do two words stand anywhere at the same offset of two blocks?
fn has_pair(section: &[u32], left: usize, one: u32, right: usize, other: u32) -> bool
    requires { (left + block_size ≤ length section.now) × (right + block_size ≤ length section.now) }
    ensures { result ≡ false → LacksPair section.now left one right other block_size }
{
    block_has(|j| (section[left + j] == one) & (section[right + j] == other))
}

impl<'a> Equal<'a> {
    // Does each word equal its token in a row?
    fn all_equal(&self, p: usize) -> bool
        requires { p + length self.now.words.now ≤ size self.now.section.now + 1 }
        ensures { result ≡ stand_from (equal_words self.now.section.now) self.now.words.now p }
    {
        for (i, word) in self.words.iter().enumerate() {
            if self.section[p + i] != *word {
                return false;
            }
        }
        true
    }
}

impl<'a> Rows for Equal<'a> {
    ghost searched = { λ rows. equal_words rows.section.now };

    ghost words = { λ rows. rows.words.now };

    fn tokens(&self) -> usize {
        self.section[0] as usize
    }

    fn length(&self) -> usize {
        self.words.len()
    }

    // By two words of the phrase, so that an absent word is soon one of them.
    fn pass(&self, by: usize, from: usize, to: usize) -> usize {
        let next = self.after(by);
        let one = self.words[by];
        let other = self.words[next];
        pass_blocks(from, to, |p| {
            has_pair(self.section, p + by, one, p + next, other)
        })
    }

    // Finds may follow each other.
    fn stands_first(&self, p: usize) -> bool {
        self.all_equal(p)
    }

    fn stands(&self, by: usize, p: usize) -> bool {
        self.section[p + by] == self.words[by] && self.all_equal(p)
    }

    fn after(&self, by: usize) -> usize {
        if by + 1 < self.words.len() { by + 1 } else { 0 }
    }
}

impl<'a> Rows for OneEqual<'a> {
    ghost searched = { λ one. equal_words one.rows.section.now };

    ghost words = { λ one. one.rows.words.now };

    fn tokens(&self) -> usize {
        self.rows.tokens()
    }

    fn length(&self) -> usize {
        1
    }

    fn pass(&self, _by: usize, from: usize, to: usize) -> usize {
        let section = self.rows.section;
        let word = self.rows.words[0];
        pass_blocks(from, to, |p| has_number(section, p, word))
    }

    fn stands_first(&self, _p: usize) -> bool {
        false
    }

    fn stands(&self, _by: usize, p: usize) -> bool {
        self.rows.section[p] == self.rows.words[0]
    }

    fn after(&self, by: usize) -> usize {
        by
    }
}
