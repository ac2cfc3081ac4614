// Phrase: "one match per start where the k words stand in a row, ascending, holding one contiguous include. Its query position is its rank".
// Document 02, F-6: "A phrase fits where each word equals its token or both are in the table with the same family."

#![tactic(auto)]

mod equal; // rows by equality
mod fitting; // rows by families
mod rows; // the rows in which a phrase may stand

ghost use Rattle.std.specs.Prelude.{not, ◌≡◌, ℕ, ◌+◌, ◌≤◌, length};
ghost use Rattle.model.specs.Accepted.{AcceptedFamilies, AcceptedSection, max_phrases};
ghost use Rattle.model.specs.Families.{searched_of};
ghost use Rattle.model.specs.Limits.{max_waiting};
ghost use Rattle.model.specs.Lists.{is_empty};
ghost use Rattle.model.specs.Rules.{found, phrase_list};
ghost use Rattle.store.specs.Layout.{match_numbers, slot_size};
ghost use Rattle.store.specs.Outcome.{Outcome};
ghost use Rattle.store.specs.Put.{Put};
ghost use Rattle.phrase.specs.Searches.{FamiliesOf};
ghost use Rattle.phrase.specs.Starts.{Findable};

use equal::{Equal, OneEqual};
use families::{Kin, Table};
use fitting::{Fitting, MAX_WORDS, first_told, look_up};
use model::{MAX_MATCHES, Position};
use rows::{Rows, next_start, start_from};
use store::{Built, Size, TooLong};
use strings::{Packed, Run, Sort};

// Is there any start, where some words are in the table? (It builds what the list's function below builds: a trait to share that is longer.)
fn is_found_by_families<'a>(
    section: &'a [u32],
    families: &'a [u32],
    words: &'a [u32],
    known: &'a [Option<u32>],
) -> bool
    requires accepted_section { AcceptedSection section.now }
    requires a_word { 1 ≤ length words.now }
    requires few_words { length words.now ≤ max_waiting }
    requires accepted_families { AcceptedFamilies families.now }
    requires known { FamiliesOf families.now words.now known.now }
    ensures { (rank : ℕ) → result ≡ not (is_empty (phrase_list (searched_of section.now families.now) rank words.now)) }
{
    let table = Table { lent: families };
    let mut kin = Kin::new();
    let told = first_told(&table, words, known, &mut kin);
    let first = told.unwrap_or(0);
    let kin = told.map(|_| kin.as_slice());
    let rows = Fitting {
        section,
        table,
        words,
        families: known,
        first,
        kin,
    };
    next_start(&rows, 1).is_some()
}

// Is there any start? Stops at the first. A call of its own, so that what the walk builds takes none of its stack.
#[inline(never)]
pub fn is_found<'a>(section: &'a [u32], families: &'a [u32], words: &'a [u32]) -> bool
    requires accepted_section { AcceptedSection section.now }
    requires accepted_families { AcceptedFamilies families.now }
    requires words_len_bound { length words.now ≤ max_waiting }
    ensures { (rank : ℕ) → result ≡ not (is_empty (phrase_list (searched_of section.now families.now) rank words.now)) }
{
    let table = Table { lent: families };
    let mut known = [None; MAX_WORDS];
    if !look_up(&table, words, &mut known) {
        let rows = Equal { section, words };
        return if words.len() == 1 {
            start_from(&OneEqual { rows }, 1).is_some()
        } else {
            start_from(&rows, 1).is_some()
        };
    }
    is_found_by_families(section, families, words, &known)
}

// Puts the find of k words at position p: a match with one contiguous include.
fn put_found(mem: &mut [u32], q: usize, p: usize, k: usize, rank: u32) -> usize
    requires { Findable (length mem.old) q p k rank }
    ensures { Put mem.old mem.new q (match_numbers (found rank k p)) result }
{
    let run = Run {
        lo: Position(p as u32),
        hi: Position((p + k - 1) as u32),
    };
    let string = Packed::new(run, rank, true, Sort::Include);
    let next = store::put_string(mem, q + store::FIRST_STRING, string);
    store::close_match(mem, q, next, next);
    next
}

// The list of the phrase that is looked for in some rows, in the slot at `at`; given up at the 257th find.
fn list_of<R: Rows>(rows: &R, rank: u32, mem: &mut [u32], at: usize) -> Built
    requires rank_le_max_phrases { rank ≤ max_phrases }
    requires slot_size_in_bounds { at + slot_size ≤ length mem.old }
    ensures { Outcome (phrase_list (R.searched rows.now) rank (R.words rows.now)) mem.old mem.new at result }
{
    let k = rows.length();
    let mut q = at + store::FIRST_MATCH;
    let mut matches = 0;
    let mut from = 1;
    while let Some(p) = next_start(rows, from) {
        if matches == MAX_MATCHES {
            return Err(TooLong);
        }
        q = put_found(mem, q, p, k, rank);
        matches += 1;
        from = p + 1;
    }
    let size = Size {
        matches,
        strings: matches,
    };
    store::put_slot_header(mem, at, size);
    Ok(size)
}

// The list of a phrase of which some words are in the table.
fn list_by_families<'a>(
    section: &'a [u32],
    families: &'a [u32],
    words: &'a [u32],
    known: &'a [Option<u32>],
    rank: u32,
    mem: &mut [u32],
    at: usize,
) -> Built
    requires accepted_section { AcceptedSection section.now }
    requires a_word { 1 ≤ length words.now }
    requires few_words { length words.now ≤ max_waiting }
    requires accepted_families { AcceptedFamilies families.now }
    requires known { FamiliesOf families.now words.now known.now }
    requires rank_le_max_phrases { rank ≤ max_phrases }
    requires slot_size_in_bounds { at + slot_size ≤ length mem.old }
    ensures { Outcome (phrase_list (searched_of section.now families.now) rank words.now) mem.old mem.new at result }
{
    let table = Table { lent: families };
    let mut kin = Kin::new();
    let told = first_told(&table, words, known, &mut kin);
    let first = told.unwrap_or(0);
    let kin = told.map(|_| kin.as_slice());
    let rows = Fitting {
        section,
        table,
        words,
        families: known,
        first,
        kin,
    };
    list_of(&rows, rank, mem, at)
}

// The list of a phrase, in the slot at `at`.
pub fn phrase_list<'a>(
    section: &'a [u32],
    families: &'a [u32],
    words: &'a [u32],
    rank: u32,
    mem: &mut [u32],
    at: usize,
) -> Built
    requires accepted_section { AcceptedSection section.now }
    requires accepted_families { AcceptedFamilies families.now }
    requires words_len_bound { length words.now ≤ max_waiting }
    requires rank_le_max_phrases { rank ≤ max_phrases }
    requires slot_size_in_bounds { at + slot_size ≤ length mem.old }
    ensures { Outcome (phrase_list (searched_of section.now families.now) rank words.now) mem.old mem.new at result }
{
    let table = Table { lent: families };
    let mut known = [None; MAX_WORDS];
    if !look_up(&table, words, &mut known) {
        let rows = Equal { section, words };
        return if words.len() == 1 {
            list_of(&OneEqual { rows }, rank, mem, at)
        } else {
            list_of(&rows, rank, mem, at)
        };
    }
    list_by_families(section, families, words, &known, rank, mem, at)
}
