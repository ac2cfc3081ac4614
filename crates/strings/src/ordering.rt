// Whether strings agree in their order.
ghost use Rattle.std.specs.Prelude.{◌≡◌, ◌&&◌, leb};
ghost use Rattle.model.specs.Rules.{agree, ordered};
ghost use Rattle.strings.specs.Strings.{str_packed, strs_at};

use super::packed::{Packed, strings_in};

// "start and query position both do not fall .. from one to the other"
fn neither_falls(a: Packed, b: Packed) -> bool
    ensures { result ≡ (leb (str_packed a).start (str_packed b).start && leb (str_packed a).query (str_packed b).query) }
{
    a.start() <= b.start() && a.query() <= b.query()
}

// "two strings agree if start and query position both do not fall, or both do not rise, from one to the other"
pub fn agree(a: Packed, b: Packed) -> bool
    ensures { result ≡ agree (str_packed a) (str_packed b) }
{
    neither_falls(a, b) || neither_falls(b, a)
}

// "it agrees with every include"
pub fn agrees_with_all(s: Packed, strs: &[u32]) -> bool
    ensures { result ≡ ordered.stays (strs_at strs.now) (str_packed s) }
{
    strings_in(strs).all(|other| agree(s, other))
}

// "all pairs of includes agree": each with those after it
#[tactic(auto, unfolding(model::specs::Lists::all_pairs))]
pub fn all_agree(strs: &[u32]) -> bool
    ensures { result ≡ ordered.keeps (strs_at strs.now) }
{
    let mut rest = strings_in(strs);
    // not a `for`, which would hold the strings after s
    while let Some(s) = rest.next() {
        if !agrees_with_all(s, rest.as_slice()) {
            return false;
        }
    }
    true
}
