// Filters that keep a match or drop it, all but window. Each is three things: a test on the includes, a test that an exclude stays by, and whether the result
// holds the join.

#![tactic(auto)]

ghost use Rattle.std.specs.Prelude.{◌≡◌};
ghost use Rattle.model.specs.Rules.{Keeping, at_position, different, distance, entire_content, ordered, same};
ghost use Rattle.model.specs.Section.{section_of};
ghost use Rattle.strings.specs.Strings.{str_packed, strs_at};

use distance::{Distances, in_distance, sorted_within};
use model::Position;
use slices::number_at;
use std::marker::PhantomData;
use strings::covering::{Chosen, covered, run_covered};
use strings::ordering::{agrees_with_all, all_agree};
use strings::{Packed, Run};
use units::Unit;
use units::different::{all_differ, differs};
use units::same::{all_in_same, in_same};

// A filter that keeps a match or drops it, with its numbers and the section that it reads.
pub trait Keeper: Copy {
    // what document 01 says of it
    ghost keeping: { Self → Keeping };

    // "Kept if .."
    fn keeps(self, includes: &[u32]) -> bool
        ensures { result ≡ (keeping self).keeps (strs_at includes.now) };

    // "an exclude stays if .."
    fn stays(self, includes: &[u32], exclude: Packed) -> bool
        ensures { result ≡ (keeping self).stays (strs_at includes.now) (str_packed exclude) };

    // "the result holds the join"
    fn joins(self) -> bool
        ensures { result ≡ (keeping self).joins };
}

#[derive(Clone, Copy)]
pub struct Ordered;

impl Keeper for Ordered {
    ghost keeping = { λ k. ordered };

    fn keeps(self, includes: &[u32]) -> bool {
        all_agree(includes)
    }

    fn stays(self, includes: &[u32], exclude: Packed) -> bool {
        agrees_with_all(exclude, includes)
    }

    fn joins(self) -> bool {
        false
    }
}

impl Keeper for Distances {
    ghost keeping = { λ k. distance k.least k.most };

    fn keeps(self, includes: &[u32]) -> bool {
        sorted_within(includes, self)
    }

    fn stays(self, includes: &[u32], exclude: Packed) -> bool {
        in_distance(exclude, includes, self)
    }

    fn joins(self) -> bool {
        true
    }
}

// Same sentence, same paragraph.
#[derive(Clone, Copy)]
pub struct Same<'a, U> {
    pub section: &'a [u32],
    pub unit: PhantomData<U>,
}

impl<'a, U: Unit> Same<'a, U> {
    pub fn new(section: &'a [u32]) -> Same<'a, U>
        ensures { result.section.now ≡ section.now }
    {
        Same {
            section,
            unit: PhantomData,
        }
    }
}

impl<'a, U: Unit> Keeper for Same<'a, U> {
    ghost keeping = { λ k. same (U.unit_in (section_of k.section.now)) };

    fn keeps(self, includes: &[u32]) -> bool {
        all_in_same::<U>(self.section, includes)
    }

    fn stays(self, includes: &[u32], exclude: Packed) -> bool {
        in_same::<U>(self.section, includes, exclude)
    }

    fn joins(self) -> bool {
        false
    }
}

// Different sentence, different paragraph.
#[derive(Clone, Copy)]
pub struct Different<'a, U> {
    pub section: &'a [u32],
    pub unit: PhantomData<U>,
}

impl<'a, U: Unit> Different<'a, U> {
    pub fn new(section: &'a [u32]) -> Different<'a, U>
        ensures { result.section.now ≡ section.now }
    {
        Different {
            section,
            unit: PhantomData,
        }
    }
}

impl<'a, U: Unit> Keeper for Different<'a, U> {
    ghost keeping = { λ k. different (U.unit_in (section_of k.section.now)) };

    fn keeps(self, includes: &[u32]) -> bool {
        all_differ::<U>(self.section, includes)
    }

    fn stays(self, includes: &[u32], exclude: Packed) -> bool {
        differs::<U>(self.section, includes, exclude)
    }

    fn joins(self) -> bool {
        false
    }
}

// At start, of position 1, and at end, of position n: "some include covers position 1, or n. With n = 0 none does."
#[derive(Clone, Copy)]
pub struct AtPosition<'a> {
    pub section: &'a [u32],
    pub p: Position,
}

impl<'a> AtPosition<'a> {
    // At start.
    pub fn start(section: &'a [u32]) -> AtPosition<'a>
        ensures section_value { result.section.now ≡ section.now }
        ensures p_value { result.p.0 ≡ 1 }
    {
        AtPosition {
            section,
            p: Position(1),
        }
    }

    // At end.
    pub fn end(section: &'a [u32]) -> AtPosition<'a>
        ensures section_value { result.section.now ≡ section.now }
        ensures p_value { result.p.0 ≡ (section_of section.now).tokens }
    {
        AtPosition {
            section,
            p: Position(number_at(section, 0)),
        }
    }
}

impl<'a> Keeper for AtPosition<'a> {
    ghost keeping = { λ k. at_position (section_of k.section.now) k.p.0 };

    fn keeps(self, includes: &[u32]) -> bool {
        1 <= number_at(self.section, 0) && covered(includes, self.p)
    }

    fn stays(self, _includes: &[u32], _exclude: Packed) -> bool {
        true
    }

    fn joins(self) -> bool {
        false
    }
}

#[derive(Clone, Copy)]
pub struct EntireContent<'a> {
    pub section: &'a [u32],
}

impl<'a> Keeper for EntireContent<'a> {
    ghost keeping = { λ k. entire_content (section_of k.section.now) };

    fn keeps(self, includes: &[u32]) -> bool {
        let all = Run {
            lo: Position(1),
            hi: Position(number_at(self.section, 0)),
        };
        run_covered(includes, all, Chosen::Contiguous)
    }

    fn stays(self, _includes: &[u32], _exclude: Packed) -> bool {
        true
    }

    fn joins(self) -> bool {
        false
    }
}
