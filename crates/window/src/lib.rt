// Window: "for each match with includes and each W from (greatest end − N + 1) up to least start, one match: the join, and the excludes inside W to
// W + N − 1. W may be zero or negative. Equal copies are all listed. A match without includes is dropped." A window is named here by its last position,
// W + N − 1, as in the definition.

#![tactic(auto)]

mod inside; // whether a string is inside a window
mod sizes; // how many matches and strings the windows have
mod writing; // the windows of one match

ghost use mathlib.Core.List.{flat_map};
ghost use Rattle.std.specs.Prelude.{length};
ghost use Rattle.model.specs.Rules.{window};
ghost use Rattle.store.specs.Outcome.{Outcome};
ghost use Rattle.store.specs.Indices.{SlotBelow};
ghost use Rattle.store.specs.Slot.{SlotAt};
ghost use Rattle.window.specs.Inside.{WindowSize};

pub use inside::is_inside;
use store::Built;

// The windows of n positions of the list in a slot, in a slot above it. What n must be is asked for here and in `inside` and `sizes`: n stands alone there, and
// a struct around one number would be no plainer.
pub fn window_list(mem: &mut [u32], n: u32, src: usize, at: usize) -> Built
    requires window_size { WindowSize n }
    requires slot_at { SlotAt mem.old src }
    requires slot_below { SlotBelow (length mem.old) src at }
    ensures { (w : SlotAt mem.old src)
        → Outcome (flat_map (window n) w.list) mem.old mem.new at result }
{
    let size = sizes::window_size(mem, n, src)?;
    let count = store::size_at(mem, src).matches;
    let first = src + store::FIRST_MATCH;
    store::each_match(mem, first, count, at + store::FIRST_MATCH, |mem, from, q| {
        writing::put_windows(mem, n, from, q)
    });
    store::put_slot_header(mem, at, size);
    Ok(size)
}
