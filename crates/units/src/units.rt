// The units that strings start and end in.
ghost use Rattle.std.specs.Prelude.{◌≡◌};
ghost use Rattle.model.specs.Rules.{apart, in_unit, nonzero};
ghost use Rattle.model.specs.Section.{section_of};
ghost use Rattle.strings.specs.Strings.{str_packed};
ghost use Rattle.units.specs.Units.{range};

use super::Unit;
use strings::Packed;

// The units that a string starts and ends in.
#[derive(Clone, Copy)]
pub struct Units<U> {
    pub first: U,
    pub last: U,
}

// "A sentence or paragraph of a span's start or end is that of the token there."
pub fn units_of<U: Unit>(section: &[u32], s: Packed) -> Units<U>
    ensures first_value { U.number result.first ≡ U.unit_in (section_of section.now) (str_packed s).start }
    ensures last_value { U.number result.last ≡ U.unit_in (section_of section.now) (str_packed s).end }
{
    Units {
        first: U::at(section, s.start()),
        last: U::at(section, s.end()),
    }
}

impl<U: Unit> Units<U> {
    // "starts and ends in one nonzero unit": in this one
    pub fn in_one(self, unit: U) -> bool
        ensures { result ≡ in_unit (U.number unit) (range (U.number self.first) (U.number self.last)) }
    {
        unit.is_nonzero() && self.first == unit && self.last == unit
    }

    // "its units are nonzero"
    pub fn all_nonzero(self) -> bool
        ensures { result ≡ nonzero (range (U.number self.first) (U.number self.last)) }
    {
        self.first.is_nonzero() && self.last.is_nonzero()
    }

    // no "unit ranges overlapping"
    pub fn apart(self, other: Units<U>) -> bool
        ensures { result ≡ apart (range (U.number self.first) (U.number self.last)) (range (U.number other.first) (U.number other.last)) }
    {
        self.last < other.first || other.last < self.first
    }
}
