// The rows in which each word of a phrase equals its token or is of its family. Looked for is one of the words, by all words that fit it, its kin; where these
// aren't told of any, every row is tried.
ghost use Rattle.std.specs.Prelude.{true, false, ◌≡◌, ◌+◌, ◌*◌, ◌≤◌, ◌<◌, IfNone, IfSome, get_or, length};
ghost use Rattle.std.proofs.Props.{props};
ghost use Rattle.model.specs.Accepted.{AcceptedSection};
ghost use Rattle.model.specs.Families.{searched_of};
ghost use Rattle.model.specs.Limits.{max_tokens, max_waiting};
ghost use Rattle.model.specs.Section.{size};
ghost use Rattle.slices.specs.Blocks.{block_size};
ghost use Rattle.families.specs.Kin.{KinOf};
ghost use Rattle.phrase.specs.Blocks.{LacksKin};
ghost use Rattle.phrase.specs.Searches.{FamiliesOf, OutOfTable, fits_at};

use super::rows::Rows;
use families::{Kin, Table};
use slices::blocks::{has_number, pass_blocks};

// The most words that a phrase has.
pub const MAX_WORDS: usize = model::MAX_WORDS as usize;

#[derive(Clone, Copy)]
pub struct Fitting<'a, 'b> {
    pub section: &'a [u32],
    pub table: Table<'a>,
    pub words: &'a [u32],
    // the family of each word
    pub families: &'a [Option<u32>],
    // the word that is tried first, and its kin
    pub first: usize,
    pub kin: Option<&'b [u32]>,

    ghost sized: { length section.now ≡ 1 + 2 * size section.now },
    ghost few_tokens: { size section.now ≤ max_tokens },
    ghost few_words: { length words.now ≤ max_waiting },
    ghost families_of: { FamiliesOf table.lent.now words.now families.now },
    ghost a_word: { first < length words.now },
    ghost kin_of: { IfSome kin (λ told. KinOf table.lent.now (get_or words.now first 0) told.now) } by { Prim.hlevel props },
}

// Does any of the kin stand anywhere in the block at an index? All are looked for, without an exit in between, so that several are at once.
fn has_kin(section: &[u32], at: usize, kin: &[u32]) -> bool
    requires { at + block_size ≤ length section.now }
    ensures { result ≡ false → LacksKin section.now at kin.now block_size }
{
    let mut found = false;
    for number in kin {
        found = found | has_number(section, at, *number);
    }
    found
}

// Looks the words up in the table, and puts the family of each down in an array that the caller lends: an array in the answer would be copied. Is any there?
pub fn look_up(table: &Table, words: &[u32], families: &mut [Option<u32>; MAX_WORDS]) -> bool
    requires { length words.now ≤ max_waiting }
    ensures none { result ≡ false → OutOfTable table.now.lent.now words.now }
    ensures some { result ≡ true → 1 ≤ length words.now }
    ensures families_of { FamiliesOf table.now.lent.now words.now families.new }
{
    let mut any = false;
    for (i, word) in words.iter().enumerate() {
        let family = table.family_of(*word);
        families[i] = family;
        any = any | family.is_some();
    }
    any
}

// Tells the kin of the first word that has few enough of them: which it is.
pub fn first_told(
    table: &Table,
    words: &[u32],
    families: &[Option<u32>],
    kin: &mut Kin,
) -> Option<usize>
    requires { FamiliesOf table.now.lent.now words.now families.now }
    ensures { IfSome result (λ i. (i < length words.now) × KinOf table.now.lent.now (get_or words.now i 0) kin.new) }
{
    for (i, word) in words.iter().enumerate() {
        if table.tell_kin(*word, families[i], kin) {
            return Some(i);
        }
    }
    None
}

impl<'a, 'b> Fitting<'a, 'b> {
    // Does the word that is tried first fit its token in a row?
    fn first_fits(&self, p: usize) -> bool
        requires { p + self.now.first < length self.now.section.now }
        ensures { result ≡ fits_at self.now.section.now self.now.table.lent.now self.now.words.now p self.now.first }
    {
        let token = self.section[p + self.first];
        match self.kin {
            Some(kin) => kin.contains(&token),
            None => self
                .table
                .fits(token, self.words[self.first], self.families[self.first]),
        }
    }

    // Does the word number i fit, where that one does?
    fn word_fits(&self, i: usize, p: usize) -> bool
        requires within { p + i < length self.now.section.now }
        requires a_word { i < length self.now.words.now }
        requires first_fits { fits_at self.now.section.now self.now.table.lent.now self.now.words.now p self.now.first ≡ true }
        ensures { result ≡ fits_at self.now.section.now self.now.table.lent.now self.now.words.now p i }
    {
        i == self.first
            || self
                .table
                .fits(self.section[p + i], self.words[i], self.families[i])
    }
}

impl<'a, 'b> Rows for Fitting<'a, 'b> {
    ghost searched = { λ rows. searched_of rows.section.now rows.table.lent.now };

    ghost words = { λ rows. rows.words.now };

    fn tokens(&self) -> usize {
        self.section[0] as usize
    }

    fn length(&self) -> usize {
        self.words.len()
    }

    fn pass(&self, _by: usize, from: usize, to: usize) -> usize {
        match self.kin {
            Some(kin) => pass_blocks(from, to, |p| has_kin(self.section, p + self.first, kin)),
            None => from,
        }
    }

    fn stands_first(&self, _p: usize) -> bool {
        false
    }

    fn stands(&self, _by: usize, p: usize) -> bool {
        self.first_fits(p) && (0..self.words.len()).all(|i| self.word_fits(i, p))
    }

    fn after(&self, by: usize) -> usize {
        by
    }
}
