// How many matches and strings the windows of a list have, counted before any is written.
ghost use mathlib.Core.List.{flat_map, ◌++◌};
ghost use Rattle.std.specs.Prelude.{◌≡◌, ◌+◌, ◌*◌, ◌≤◌, ◌<◌, length};
ghost use Rattle.model.specs.Limits.{max_matches, max_strings, radix};
ghost use Rattle.model.specs.Rules.{window};
ghost use Rattle.strings.specs.Strings.{strs_at};
ghost use Rattle.store.specs.Built.{built_of, sized_as};
ghost use Rattle.store.specs.Lent.{match_lent};
ghost use Rattle.store.specs.Slot.{SlotAt};
ghost use Rattle.window.specs.Inside.{WindowSize};
ghost use Rattle.window.specs.Sizes.{SizeAt, times_inside, windows_around};

use join::extent_of;
use model::MAX_MATCHES;
use store::{Built, Lent, Size, TooLong};
use strings::{Run, strings_in};

// How many windows of n positions there are around a run: "each W from (greatest end − N + 1) up to least start".
pub fn count_around(n: u32, run: Run) -> u32
    requires window_size { WindowSize n }
    requires start_lt_radix { run.lo.0 < radix }
    ensures { result ≡ windows_around n run.lo.0 run.hi.0 }
{
    (run.lo.0 + n).saturating_sub(run.hi.0)
}

// How often strings of a slice lie inside the windows around a run, summed over the windows: each as often as there are windows around it and the run.
fn count_inside(n: u32, run: Run, strs: &[u32]) -> u32
    requires window_size { WindowSize n }
    requires start_lt_radix { run.lo.0 < radix }
    requires end_bound { windows_around n run.lo.0 run.hi.0 ≤ max_matches }
    requires few_strings { length (strs_at strs.now) ≤ max_strings }
    ensures value { result ≡ times_inside n run.lo.0 run.hi.0 (strs_at strs.now) }
    ensures upper_bound { result ≤ max_matches * max_strings }
{
    let mut count = 0;
    for s in strings_in(strs) {
        count += count_around(n, run.joined(s.run()));
    }
    count
}

// The size of a list of this size after the windows around a run, with these excludes, are added.
fn size_around(n: u32, run: Run, excludes: &[u32], size: Size) -> Built
    requires window_size { WindowSize n }
    requires start_lt_radix { run.lo.0 < radix }
    requires matches_le_max_matches { (size.matches ≤ max_matches) × (size.strings ≤ max_strings) }
    requires few_excludes { length (strs_at excludes.now) ≤ max_strings }
    ensures { result ≡ sized_as (size.matches + windows_around n run.lo.0 run.hi.0)
        (size.strings + (windows_around n run.lo.0 run.hi.0 + times_inside n run.lo.0 run.hi.0 (strs_at excludes.now))) }
{
    let windows = count_around(n, run);
    if MAX_MATCHES < size.matches + windows {
        return Err(TooLong);
    }
    let more = windows + count_inside(n, run, excludes);
    store::sized(size.matches + windows, size.strings + more)
}

// The size after the windows of a match are added; a match without includes adds none.
fn size_with(n: u32, m: Lent, size: Size) -> Built
    requires { SizeAt n (match_lent m) size.matches size.strings }
    ensures { (w : SizeAt n (match_lent m.entry) size.matches size.strings) → result ≡ built_of (w.list ++ window n (match_lent m.entry)) }
{
    match extent_of(m.includes) {
        Some(run) => size_around(n, run, m.excludes, size),
        None => Ok(size),
    }
}

// The size of the windows of the list in the slot at src.
pub fn window_size(mem: &[u32], n: u32, src: usize) -> Built
    requires window_size { WindowSize n }
    requires slot_at { SlotAt mem.now src }
    ensures { (w : SlotAt mem.now src) → result ≡ built_of (flat_map (window n) w.list) }
{
    let mut size = Size {
        matches: 0,
        strings: 0,
    };
    for m in store::matches_of(mem, src) {
        size = size_with(n, m, size)?;
    }
    Ok(size)
}
