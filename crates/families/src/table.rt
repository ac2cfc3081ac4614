// An accepted family table: the words rise, so that one is looked for by halving.
ghost use Rattle.std.specs.Prelude.{true, ◌≡◌, ◌+◌, ◌≤◌};
ghost use Rattle.model.specs.Accepted.{AcceptedFamilies};
ghost use Rattle.model.specs.Families.{entry_of, family_of, word_fits};
ghost use Rattle.model.specs.Limits.{max_entries};
ghost use Rattle.model.specs.Section.{size};
ghost use Rattle.families.specs.Entries.{NextMember};
ghost use Rattle.families.specs.Kin.{Gathered, KinOf};

use super::kin::Kin;
use slices::blocks::{has_number, pass_blocks};

#[derive(Clone, Copy)]
pub struct Table<'a> {
    pub lent: &'a [u32],

    ghost accepted: { AcceptedFamilies lent.now },
}

impl<'a> Table<'a> {
    // How many entries there are.
    fn size(&self) -> usize
        ensures is { result ≡ size self.now.lent.now }
        ensures few { result ≤ max_entries }
    {
        self.lent[0] as usize
    }

    // The entry that has a word, counted from 1.
    pub fn entry_of(&self, word: u32) -> Option<usize>
        ensures { result ≡ entry_of self.now.lent.now word }
    {
        let m = self.size();
        let place = self.lent[1..m + 1].binary_search(&word).ok()?;
        Some(place + 1)
    }

    pub fn family_of(&self, word: u32) -> Option<u32>
        ensures { result ≡ family_of self.now.lent.now word }
    {
        let entry = self.entry_of(word)?;
        Some(self.lent[self.size() + entry])
    }

    // "each word equals its token or both are in the table with the same family": of a word whose family is known
    pub fn fits(&self, token: u32, word: u32, family: Option<u32>) -> bool
        requires { family ≡ family_of self.now.lent.now word }
        ensures { result ≡ word_fits self.now.lent.now token word }
    {
        token == word || (family.is_some() && self.family_of(token) == family)
    }

    // The first entry from `from` on that has the family.
    fn next_member(&self, family: u32, from: usize) -> Option<usize>
        requires { from ≤ size self.now.lent.now + 1 }
        ensures { NextMember self.now.lent.now family from result }
    {
        let m = self.size();
        let begin = pass_blocks(from, m + 1, |i| has_number(self.lent, m + i, family));
        (begin..m + 1).find(|i| self.lent[m + *i] == family)
    }

    // Tells the words of a family, where they are few enough: are they told?
    fn gather(&self, family: u32, kin: &mut Kin) -> bool
        ensures { result ≡ true → Gathered self.now.lent.now family kin.new (size self.now.lent.now + 1) }
    {
        kin.clear();
        let mut from = 1;
        while let Some(i) = self.next_member(family, from) {
            if !kin.has_room() {
                return false;
            }
            kin.push(self.lent[i]);
            from = i + 1;
        }
        true
    }

    // Tells the kin of a word whose family is known: those of its family, or the word alone. None are told where they are over 32.
    // Into kin that the caller lends: an answer would be copied, and take its stack twice.
    pub fn tell_kin(&self, word: u32, family: Option<u32>, kin: &mut Kin) -> bool
        requires { family ≡ family_of self.now.lent.now word }
        ensures { result ≡ true → KinOf self.now.lent.now word kin.new }
    {
        match family {
            Some(family) => self.gather(family, kin),
            None => {
                kin.clear();
                kin.push(word);
                true
            }
        }
    }
}
