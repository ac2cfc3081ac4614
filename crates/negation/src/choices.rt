// The choices from a list, written above it. A choice is written by two walks over the list, its includes and then its excludes; each match's string is the
// next digit of the choice's number.
ghost use Rattle.std.specs.Prelude.{◌+◌, get_or};
ghost use Rattle.model.specs.Choices.{choice};
ghost use Rattle.model.specs.Rules.{not_list};
ghost use Rattle.strings.specs.Strings.{number_of_sort};
ghost use Rattle.store.specs.Layout.{match_numbers, matches_numbers};
ghost use Rattle.store.specs.Put.{Put};
ghost use Rattle.negation.specs.Chosen.{ChoiceAt, ChoicesAt, SideAt, TurnAt};
ghost use Rattle.negation.specs.Turned.{side_numbers, turned_numbers};

use store::Header;
use strings::Sort;

// Writes the string at a turned to a sort, if it is of the other. Like every function here, returns the index after what it wrote.
fn put_turned(mem: &mut [u32], a: usize, sort: Sort, q: usize) -> usize
    requires { TurnAt mem.old a (number_of_sort sort) q }
    ensures { Put mem.old mem.new q (turned_numbers (number_of_sort sort) (get_or mem.old a 0) (get_or mem.old (a + 1) 0)) result }
{
    let string = store::string_at(mem, a);
    if string.sort() == sort {
        return q;
    }
    store::put_string(mem, q, string.with_sort(sort))
}

// The choices from the list in the slot at src, so many.
#[derive(Clone, Copy)]
pub struct Choices {
    pub src: usize,
    pub total: usize,
}

impl Choices {
    // Writes the strings of a sort of choice number c.
    fn put_side(self, mem: &mut [u32], c: usize, sort: Sort, at: usize) -> usize
        requires { SideAt mem.old self.src self.total c (number_of_sort sort) at }
        ensures { (w : SideAt mem.old self.src self.total c (number_of_sort sort) at) →
            Put mem.old mem.new at (side_numbers (number_of_sort sort) (choice w.list c)) result }
    {
        let n = store::size_at(mem, self.src).matches;
        let mut from = self.src + store::FIRST_MATCH;
        let mut q = at;
        let mut rest = c;
        let mut weight = self.total;
        for _ in 0..n {
            let header = Header(mem[from]);
            let bounds = header.bounds(from);
            // how many choices there are from the matches after this one
            weight /= header.strings();
            q = put_turned(mem, bounds.includes + 2 * (rest / weight), sort, q);
            rest %= weight;
            from = bounds.end;
        }
        q
    }

    // Writes choice number c.
    fn put(self, mem: &mut [u32], c: usize, at: usize) -> usize
        requires { ChoiceAt mem.old self.src self.total c at }
        ensures { (w : ChoiceAt mem.old self.src self.total c at) → Put mem.old mem.new at (match_numbers (choice w.list c)) result }
    {
        let excludes = self.put_side(mem, c, Sort::Include, at + store::FIRST_STRING);
        let end = self.put_side(mem, c, Sort::Exclude, excludes);
        store::close_match(mem, at, excludes, end);
        end
    }

    // Writes all choices.
    pub fn put_all(self, mem: &mut [u32], at: usize) -> usize
        requires { ChoicesAt mem.old self.src self.total at }
        ensures { (w : ChoicesAt mem.old self.src self.total at) → Put mem.old mem.new at (matches_numbers (not_list w.list)) result }
    {
        let mut q = at;
        for c in 0..self.total {
            q = self.put(mem, c, q);
        }
        q
    }
}
