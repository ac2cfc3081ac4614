// The codes of a selection: kinds and operands as `Code`. Every public function takes any slice.

#![tactic(auto)]

pub mod places; // the first place that fails
pub mod table; // kinds and operands against the table: refusals 4 and 5

ghost use Rattle.std.specs.Prelude.{◌≡◌};
ghost use Rattle.model.specs.Kinds.{a_pair, arity, is_word, shape_of};
ghost use Rattle.model.specs.Parts.{is_mild_not, is_not_code, is_occurs_code, is_phrase_code, parts_ended, phrases_ended};
ghost use Rattle.model.specs.Selection.{code_at, code_of, combination_of, filter_of, times_of};

use model::{Code, Filter, Pair, RADIX, Times};

// "2 to 5 combine"
fn combination_of(kind: u32) -> Code
    ensures { result ≡ combination_of kind }
{
    match kind {
        2 => Code::Combine(Pair::Or),
        3 => Code::Combine(Pair::And),
        4 => Code::Not,
        _ => Code::Combine(Pair::MildNot),
    }
}

// "6 to 15 filter"
fn filter_of(kind: u32, operand: u32) -> Filter
    ensures { result ≡ filter_of kind operand }
{
    match kind {
        6 => Filter::Ordered,
        7 => Filter::Window(operand),
        8 => Filter::Distance {
            least: operand / RADIX,
            most: operand % RADIX,
        },
        9 => Filter::SameSentence,
        10 => Filter::SameParagraph,
        11 => Filter::DifferentSentence,
        12 => Filter::DifferentParagraph,
        13 => Filter::AtStart,
        14 => Filter::AtEnd,
        _ => Filter::EntireContent,
    }
}

// F-3: "kind 16, occurs from a to b (operand as kind 8), and kind 17, occurs at least a"
fn times_of(kind: u32, operand: u32) -> Times
    ensures { result ≡ times_of kind operand }
{
    match kind {
        16 => Times::FromTo {
            least: operand / RADIX,
            most: operand % RADIX,
        },
        _ => Times::AtLeast(operand),
    }
}

// "Kinds 0 and 1 are words, 2 to 5 combine, 6 to 15 filter"; F-3: 16 and 17 are occurs, "18 and up are unknown"
fn code_of(kind: u32, operand: u32) -> Code
    ensures { result ≡ code_of kind operand }
{
    match kind {
        0 => Code::Word(operand),
        1 => Code::Phrase(operand),
        2..=5 => combination_of(kind),
        6..=15 => Code::Filter(filter_of(kind, operand)),
        16..=17 => Code::Occurs(times_of(kind, operand)),
        // refused before its code is asked for: an entire content stands for it
        _ => Code::Filter(Filter::EntireContent),
    }
}

// The code at a place, counted from 1.
pub fn code_at(selection: &[u32], place: u32) -> Code
    ensures { result ≡ code_at selection.now place }
{
    let kind = slices::number_at(selection, place as usize);
    let operand = slices::second_at(selection, place);
    code_of(kind, operand)
}

pub fn is_word(code: Code) -> bool
    ensures { result ≡ is_word (shape_of code) }
{
    matches!(code, Code::Word(_))
}

// How many lists a code takes.
pub fn lists_taken(code: Code) -> usize
    ensures { result ≡ arity (shape_of code) }
{
    match code {
        Code::Word(_) | Code::Phrase(_) => 0,
        Code::Combine(_) => 2,
        Code::Not | Code::Filter(_) | Code::Occurs(_) => 1,
    }
}

// One for every code other than a word.
pub fn parts_ended(code: Code) -> u32
    ensures { result ≡ parts_ended (shape_of code) }
{
    u32::from(!is_word(code))
}

// One for a phrase, none for another code.
pub fn phrases_ended(code: Code) -> u32
    ensures { result ≡ phrases_ended (shape_of code) }
{
    u32::from(is_phrase(code))
}

pub fn is_phrase(code: Code) -> bool
    ensures { result ≡ is_phrase_code (shape_of code) }
{
    matches!(code, Code::Phrase(_))
}

pub fn is_occurs(code: Code) -> bool
    ensures { result ≡ is_occurs_code (shape_of code) }
{
    matches!(code, Code::Occurs(_))
}

// What refusal 7 counts as a not: "Document 01's rule against a not under a mild not now counts kind 16 too".
pub fn is_not(code: Code) -> bool
    ensures { result ≡ is_not_code (shape_of code) }
{
    matches!(code, Code::Not | Code::Occurs(Times::FromTo { .. }))
}

pub fn is_mild(pair: Pair) -> bool
    ensures { result ≡ is_mild_not (a_pair pair) }
{
    pair == Pair::MildNot
}

pub fn is_mild_not(code: Code) -> bool
    ensures { result ≡ is_mild_not (shape_of code) }
{
    matches!(code, Code::Combine(Pair::MildNot))
}
