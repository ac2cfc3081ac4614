// The rows of a section in which a phrase may stand, and the first of them in which it does.
ghost use Rattle.std.specs.Prelude.{true, ℕ, List, ◌≡◌, ◌+◌, ◌≤◌, ◌<◌, IfSome, length};
ghost use Rattle.model.specs.Families.{Searched};
ghost use Rattle.model.specs.Limits.{max_tokens, max_waiting};
ghost use Rattle.model.specs.Rules.{stand_from};
ghost use Rattle.phrase.specs.Starts.{NextStart, Skipped};

use slices::blocks::BLOCK_SIZE;

// How rows are tried: some at once, and one by one. A row goes by the position that it begins at.
pub trait Rows {
    // the section with its test of two words, and the words of the phrase
    ghost searched: { Self → Searched };

    ghost words: { Self → List ℕ };

    // How many tokens the section has.
    fn tokens(&self) -> usize
        ensures is { result ≡ (searched self.now).section.tokens }
        ensures few { result ≤ max_tokens };

    // How many words the phrase has.
    fn length(&self) -> usize
        ensures is { result ≡ length (words self.now) }
        ensures few { result ≤ max_waiting };

    // Passes rows in none of which the phrase stands, by blocks, and by the word number `by` where that helps.
    fn pass(&self, by: usize, from: usize, to: usize) -> usize
        requires in_order { from ≤ to }
        requires within { to + length (words self.now) ≤ (searched self.now).section.tokens + 2 }
        requires a_word { by < length (words self.now) }
        ensures { Skipped (searched self.now) (words self.now) from to result };

    // Does the phrase stand in the first row, as far as it is worth to try that by itself?
    fn stands_first(&self, p: usize) -> bool
        requires { p + length (words self.now) ≤ (searched self.now).section.tokens + 1 }
        ensures { result ≡ true → stand_from (searched self.now) (words self.now) p ≡ true };

    // Does the phrase stand in a row? The word number `by` is tried first.
    fn stands(&self, by: usize, p: usize) -> bool
        requires within { p + length (words self.now) ≤ (searched self.now).section.tokens + 1 }
        requires a_word { by < length (words self.now) }
        ensures { result ≡ stand_from (searched self.now) (words self.now) p };

    // The word to go on by, where the rows of a block couldn't be passed by another and the phrase stands in none.
    fn after(&self, by: usize) -> usize
        requires { by < length (words self.now) }
        ensures { result < length (words self.now) };
}

// The first row from `from` on in which the phrase stands: blocks of rows are passed, at first by the last word, and the rows of one that couldn't be passed are
// tried one by one.
#[inline(always)]
pub fn start_from<R: Rows>(rows: &R, from: usize) -> Option<usize>
    requires { from ≤ (R.searched rows.now).section.tokens + 1 }
    ensures next { NextStart (R.searched rows.now) (R.words rows.now) from result }
    ensures few { IfSome result (λ p. p ≤ max_tokens) }
{
    let after = rows.tokens() + 1;
    let k = rows.length();
    if after < from + k {
        return None;
    }
    if k == 0 {
        // a phrase of no words stands in every row
        return if from < after { Some(from) } else { None };
    }
    if rows.stands_first(from) {
        return Some(from);
    }
    let to = after + 1 - k;
    let mut by = k - 1;
    let mut p = from;
    // by as many blocks as are passed at once
    while p < to {
        let begin = rows.pass(by, p, to);
        let end = begin + BLOCK_SIZE.min(to - begin);
        if let Some(start) = (begin..end).find(|q| rows.stands(by, *q)) {
            return Some(start);
        }
        p = end;
        by = rows.after(by);
    }
    None
}

// The same for a list's loop: a function of its own, so that the compiler makes it a part of that loop where nothing else calls it.
pub fn next_start<R: Rows>(rows: &R, from: usize) -> Option<usize>
    requires { from ≤ (R.searched rows.now).section.tokens + 1 }
    ensures next { NextStart (R.searched rows.now) (R.words rows.now) from result }
    ensures few { IfSome result (λ p. p ≤ max_tokens) }
{
    start_from(rows, from)
}
