// The waiting rule: lists and loose words wait while codes are read from left to right.
ghost use Rattle.std.specs.Prelude.{◌&&◌, ◌≡◌, ◌<◌, ◌≤◌, eqb, leb};
ghost use Rattle.model.specs.Checks.{wrong_shape};
ghost use Rattle.model.specs.Kinds.{arity, shape_of};
ghost use Rattle.model.specs.Waiting.{fits, is_complete, lists_after, words_after};

use model::{Code, MAX_WAITING};

// The lists that wait after a code that finds those that it takes.
pub fn lists_after(code: Code, lists: usize) -> usize
    requires code_bound { arity (shape_of code) ≤ lists }
    requires lists_bound { lists < 4294967296 }
    ensures { result ≡ lists_after (shape_of code) lists }
{
    if codes::is_word(code) {
        return lists;
    }
    lists + 1 - codes::lists_taken(code)
}

// The lists and the loose words that wait.
#[derive(Clone, Copy, PartialEq, Eq)]
struct Waiting {
    lists: usize,
    words: usize,
}

impl Waiting {
    // "Other kinds need p = 0", and so many lists
    fn has(self, needed: usize) -> bool
        ensures { result ≡ (eqb self.words 0 && leb needed self.lists) }
    {
        self.words == 0 && needed <= self.lists
    }

    // Does a code fit here?
    fn fits(self, code: Code) -> bool
        ensures { result ≡ fits (shape_of code) self.lists self.words }
    {
        match code {
            Code::Word(_) => self.words < MAX_WAITING as usize,
            Code::Phrase(k) => self.words == k as usize && self.lists < MAX_WAITING as usize,
            Code::Combine(_) => self.has(2),
            Code::Not | Code::Filter(_) | Code::Occurs(_) => self.has(1),
        }
    }

    // "At the end w = 1 and p = 0."
    fn is_complete(self) -> bool
        ensures { result ≡ is_complete self.lists self.words }
    {
        self.lists == 1 && self.words == 0
    }

    // What waits after a code that finds the lists that it takes.
    fn after(self, code: Code) -> Waiting
        requires code_bound { arity (shape_of code) ≤ self.lists }
        requires lists_bound { self.lists < 4294967296 }
        requires words_bound { self.words < 4294967296 }
        ensures lists { result.lists ≡ lists_after (shape_of code) self.lists }
        ensures words { result.words ≡ words_after (shape_of code) self.words }
    {
        Waiting {
            lists: lists_after(code, self.lists),
            words: if codes::is_word(code) {
                self.words + 1
            } else {
                0
            },
        }
    }
}

// Refusal 6: the first code breaking the rule, the last code if only the end does.
pub fn wrong_shape(selection: &[u32]) -> Option<u32>
    ensures { result ≡ wrong_shape selection.now }
{
    let m = slices::number_at(selection, 0);
    let mut waiting = Waiting { lists: 0, words: 0 };
    for c in 0..m {
        let code = codes::code_at(selection, c + 1);
        if !waiting.fits(code) {
            return Some(c + 1);
        }
        waiting = waiting.after(code);
    }
    if waiting.is_complete() { None } else { Some(m) }
}
