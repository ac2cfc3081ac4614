// The windows of one match, written after what is written. Like store's functions these give the index after.
ghost use Rattle.std.specs.Prelude.{[], MatchOption, ◌≡◌};
ghost use Rattle.model.specs.Lists.{keep};
ghost use Rattle.model.specs.Rules.{inside_window, window, window_ends, window_to};
ghost use Rattle.strings.specs.Strings.{strs_at, strs_of};
ghost use Rattle.store.specs.Each.{OneAt};
ghost use Rattle.store.specs.Layout.{match_numbers, matches_numbers};
ghost use Rattle.store.specs.Put.{Put};
ghost use Rattle.window.specs.Inside.{ExcludesAt, WindowSize};
ghost use Rattle.window.specs.Windows.{JoinIs, WindowAt, WindowsAt};

use super::inside::is_inside;
use super::sizes::count_around;
use join::{extent_of, join};
use model::Position;
use strings::Packed;

// What the windows of a match are made of: their number of positions, the match's join, and where its excludes lie.
#[derive(Clone, Copy)]
struct Source {
    n: u32,
    join: Packed,
    excludes: usize,
    end: usize,
}

impl Source {
    // Puts the excludes that lie inside the window up to `last`.
    fn put_inside(self, mem: &mut [u32], last: Position, q: usize) -> usize
        requires { ExcludesAt self.n last.0 mem.old self.excludes self.end q }
        ensures { (w : ExcludesAt self.n last.0 mem.old self.excludes self.end q)
            → Put mem.old mem.new q (strs_of 1 (keep (inside_window self.n last.0) w.list)) result }
    {
        let mut next = q;
        for i in 0..(self.end - self.excludes) / 2 {
            let string = store::string_at(mem, self.excludes + 2 * i);
            if is_inside(self.n, last, string.span) {
                next = store::put_string(mem, next, string);
            }
        }
        next
    }

    // "one match: the join, and the excludes inside W to W + N − 1"
    fn put_window(self, mem: &mut [u32], last: Position, q: usize) -> usize
        requires { WindowAt self.n last.0 mem.old self.excludes self.end q self.join.span self.join.tag }
        ensures { (w : WindowAt self.n last.0 mem.old self.excludes self.end q self.join.span self.join.tag)
            → Put mem.old mem.new q (match_numbers (window_to self.n w.item last.0)) result }
    {
        let excludes = store::put_string(mem, q + store::FIRST_STRING, self.join);
        let end = self.put_inside(mem, last, excludes);
        store::close_match(mem, q, excludes, end);
        end
    }

    // "each W from (greatest end − N + 1) up to least start"
    fn put_all(self, mem: &mut [u32], q: usize) -> usize
        requires { WindowsAt self.n mem.old self.excludes self.end q self.join.span self.join.tag }
        ensures { (w : WindowsAt self.n mem.old self.excludes self.end q self.join.span self.join.tag)
            → Put mem.old mem.new q (matches_numbers (window self.n w.item)) result }
    {
        let mut next = q;
        for last in self.join.end().0..self.join.start().0 + self.n {
            next = self.put_window(mem, Position(last), next);
        }
        next
    }
}

// The join of includes, if there are windows around it: if there are any includes, and they aren't further apart than a window is wide.
fn join_inside(n: u32, includes: &[u32]) -> Option<Packed>
    requires { WindowSize n }
    ensures { MatchOption result (window_ends n (strs_at includes.now) ≡ []) (JoinIs n (strs_at includes.now)) }
{
    let run = extent_of(includes)?;
    if count_around(n, run) == 0 {
        return None;
    }
    join(includes)
}

// "for each match with includes .. A match without includes is dropped."
pub fn put_windows(mem: &mut [u32], n: u32, from: usize, q: usize) -> usize
    requires window_size { WindowSize n }
    requires one_at { OneAt (window n) mem.old from q }
    ensures { (w : OneAt (window n) mem.old from q)
        → Put mem.old mem.new q (matches_numbers (window n w.item)) result }
{
    let bounds = store::bounds_at(mem, from);
    let Some(join) = join_inside(n, bounds.includes(mem)) else {
        return q;
    };
    let source = Source {
        n,
        join,
        excludes: bounds.excludes,
        end: bounds.end,
    };
    source.put_all(mem, q)
}
