// How many matches a not has: the product of the numbers of strings of its operand's matches. The product may be far above any u32, so it is counted with
// a ceiling; a match without strings makes it 0 all the same, wherever it stands.
ghost use Rattle.std.specs.Prelude.{◌≡◌, ◌+◌, ◌*◌, ◌≤◌};
ghost use Rattle.model.specs.Choices.{choices};
ghost use Rattle.model.specs.Limits.{max_strings};
ghost use Rattle.model.specs.Rules.{not_list};
ghost use Rattle.store.specs.Built.{built_of};
ghost use Rattle.store.specs.Slot.{SlotAt};
ghost use Rattle.negation.specs.Sizes.{capped, ceiling};

use model::MAX_MATCHES;
use store::Built;

// The first number above the limit of matches, for every product that is above the limit.
const CEILING: u32 = MAX_MATCHES + 1;

// A product, or the ceiling where it is above the limit.
fn product(total: u32, strings: u32) -> u32
    requires { (total ≤ ceiling) × (strings ≤ max_strings) }
    ensures { result ≡ capped (total * strings) }
{
    (total * strings).min(CEILING)
}

// The number of choices from the list in the slot at src, up to the ceiling.
fn count_choices(mem: &[u32], src: usize) -> u32
    requires { SlotAt mem.now src }
    ensures { (w : SlotAt mem.now src) → result ≡ capped (choices w.list) }
{
    let mut total = 1;
    for m in store::matches_of(mem, src) {
        total = product(total, m.strings() as u32);
    }
    total
}

// The sizes of the not of the list in the slot at src: a string of each of its matches in each choice.
pub fn not_size(mem: &[u32], src: usize) -> Built
    requires { SlotAt mem.now src }
    ensures { (w : SlotAt mem.now src) → result ≡ built_of (not_list w.list) }
{
    let matches = count_choices(mem, src);
    store::sized(matches, matches * store::size_at(mem, src).matches)
}
