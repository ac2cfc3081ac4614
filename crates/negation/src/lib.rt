// Not: every choice of one string from each match of a list, each string turned to the other sort. The choices are numbered by mixed radix digits, the
// first match's string being the digit of most weight, so that each is written from its number alone.

#![tactic(auto)]

mod choices; // the choices, written
mod sizes; // how many choices there are

ghost use Rattle.std.specs.Prelude.{length};
ghost use Rattle.model.specs.Rules.{not_list};
ghost use Rattle.store.specs.Outcome.{Outcome};
ghost use Rattle.store.specs.Indices.{SlotBelow};
ghost use Rattle.store.specs.Slot.{SlotAt};

use choices::Choices;
use store::Built;

// Not: of the list in the slot at src, in the slot at `at` above it.
pub fn not_list(mem: &mut [u32], src: usize, at: usize) -> Built
    requires slot_at { SlotAt mem.old src }
    requires slot_below { SlotBelow (length mem.old) src at }
    ensures { (w : SlotAt mem.old src) → Outcome (not_list w.list) mem.old mem.new at result }
{
    let size = sizes::not_size(mem, src)?;
    let choices = Choices {
        src,
        total: size.matches as usize,
    };
    choices.put_all(mem, at + store::FIRST_MATCH);
    store::put_slot_header(mem, at, size);
    Ok(size)
}
