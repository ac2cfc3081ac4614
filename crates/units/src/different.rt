// Different sentence, different paragraph.
ghost use Rattle.std.specs.Prelude.{◌≡◌};
ghost use Rattle.model.specs.Rules.{different};
ghost use Rattle.model.specs.Section.{section_of};
ghost use Rattle.strings.specs.Strings.{str_packed, strs_at};

use super::Unit;
use super::units::units_of;
use strings::{Packed, strings_in};

// "its units are nonzero and overlap no include's"
pub fn differs<U: Unit>(section: &[u32], strs: &[u32], s: Packed) -> bool
    ensures { result ≡ (different (U.unit_in (section_of section.now))).stays (strs_at strs.now) (str_packed s) }
{
    let own = units_of::<U>(section, s);
    own.all_nonzero() && strings_in(strs).all(|other| own.apart(units_of::<U>(section, other)))
}

// "at least two includes, all units nonzero, and no two includes' unit ranges overlapping"
pub fn all_differ<U: Unit>(section: &[u32], strs: &[u32]) -> bool
    ensures { result ≡ (different (U.unit_in (section_of section.now))).keeps (strs_at strs.now) }
{
    if strs.len() < 4 {
        return false;
    }
    let mut rest = strings_in(strs);
    // not a `for`, which would hold the strings after s
    while let Some(s) = rest.next() {
        if !differs::<U>(section, rest.as_slice(), s) {
            return false;
        }
    }
    true
}
