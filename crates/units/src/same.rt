// Same sentence, same paragraph.
ghost use Rattle.std.specs.Prelude.{◌≡◌};
ghost use Rattle.model.specs.Rules.{same};
ghost use Rattle.model.specs.Section.{section_of};
ghost use Rattle.strings.specs.Strings.{str_packed, strs_at};

use super::Unit;
use super::units::units_of;
use strings::{Packed, strings_in};

// "it does so in the includes' unit; without includes, in any one nonzero unit"
pub fn in_same<U: Unit>(section: &[u32], strs: &[u32], s: Packed) -> bool
    ensures { result ≡ (same (U.unit_in (section_of section.now))).stays (strs_at strs.now) (str_packed s) }
{
    let first = strings_in(strs).next().unwrap_or(s);
    let unit = units_of::<U>(section, first).first;
    units_of::<U>(section, s).in_one(unit)
}

// "each include starts and ends in one nonzero unit, the same for all (none passes)"
pub fn all_in_same<U: Unit>(section: &[u32], strs: &[u32]) -> bool
    ensures { result ≡ (same (U.unit_in (section_of section.now))).keeps (strs_at strs.now) }
{
    strings_in(strs).all(|s| in_same::<U>(section, strs, s))
}
