// The matches of a list in memory, lent one after the other.
ghost use Rattle.std.specs.Prelude.{List, length, ◌≡◌, ◌+◌};
ghost use Rattle.std.specs.Iterator.{YieldsFirstBy, item_count};
ghost use Rattle.model.specs.Matches.{Match, is_yes};
ghost use Rattle.strings.specs.Strings.{strs_at};
ghost use Rattle.store.specs.Lent.{match_lent, matches_in, Whole};
ghost use Rattle.store.specs.Slot.{SlotAt};

use super::FIRST_MATCH;
use super::matches::Header;
use super::slots::slot_end;
use std::marker::Model;

// A match, by its strings.
#[derive(Clone, Copy)]
pub struct Lent<'a> {
    pub includes: &'a [u32],
    pub excludes: &'a [u32],
}

impl<'a> Lent<'a> {
    // How many strings it has.
    pub fn strings(self) -> usize
        ensures { result ≡ length (strs_at self.entry.includes.now) + length (strs_at self.entry.excludes.now) }
    {
        self.includes.len() / 2 + self.excludes.len() / 2
    }
}

// The matches that are left.
#[derive(Drop)]
pub struct Matches<'a> {
    rest: &'a [u32],
}

impl<'a> Model for Matches<'a> {
    ghost Value = { List Match };

    ghost view = { λ s. matches_in (length s.rest.now) s.rest.now };

    ghost invariant = { λ s. Whole s.rest.now };
}

// The matches of the list in a slot, in order.
pub fn matches_of<'a>(mem: &'a [u32], src: usize) -> Matches<'a>
    requires { SlotAt mem.now src }
    ensures { (w : SlotAt mem.now src) → result ≡ w.list }
{
    Matches {
        rest: &mem[src + FIRST_MATCH..slot_end(mem, src)],
    }
}

impl<'a> Iterator for Matches<'a> {
    type Item = Lent<'a>;

    ghost remaining = { item_count (λ s. s) };

    ghost next_gives = { YieldsFirstBy match_lent (λ s. s) };

    fn next(&mut self) -> Option<Lent<'a>> {
        let [header, strings @ ..] = self.rest else {
            return None;
        };
        let header = Header(*header);
        let (includes, others) = strings.split_at(2 * header.includes());
        let (excludes, rest) = others.split_at(2 * header.excludes());
        self.rest = rest;
        Some(Lent { includes, excludes })
    }
}

// "a match without excludes": does the list in a slot have one?
pub fn is_yes(mem: &[u32], src: usize) -> bool
    requires { SlotAt mem.now src }
    ensures { (w : SlotAt mem.now src) → result ≡ is_yes w.list }
{
    matches_of(mem, src).any(|m| m.excludes.len() < 2)
}
