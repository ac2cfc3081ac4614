// The rules of the grammar in which no parenthesis stands: a phrase with its times, and the filters. Each goes over the text from the reader's position on
// and writes its codes.

#![tactic(auto)]

ghost use Rattle.std.specs.Prelude.{◌≡◌, ℕ, ◌^◌, ◌<◌, ◌&&◌, leb, true};
ghost use Rattle.grammar.specs.Symbols.{k_entire, k_ordered, k_paragraph, k_sentence};
ghost use Rattle.model.specs.declared.Code.{Code};
ghost use Rattle.model.specs.Limits.{max_words};
ghost use Rattle.model.specs.Selection.{operand_of};
ghost use Rattle.grammar.specs.Grammar.{coded as coded_rule, either as either_rule, filter as filter_rule, filters as filters_rule, measured as measured_rule, phrase as phrase_rule, range as range_rule, range_at as range_at_rule, range_from as range_from_rule, words as words_rule};
ghost use Rattle.scanner.specs.Symbols.{is_token, number_of};
ghost use Rattle.flat_rules.specs.Answers.{Answers, AnswersMany, Fit, FitBoth, Makes, MakesBoth, one_word};

use lent_text::Reader;
use model::{Code, Filter, MAX_DISTANCE, MAX_NUMBER, MAX_WORD, MAX_WORDS, Refusal, Times};
use scanner::symbols::Symbol;

// A word of a phrase.
fn word(reader: &mut Reader) -> Result<(), Refusal>
    ensures { Answers (λ _. one_word) reader.old reader.new result }
{
    let word = reader.number(MAX_WORD)?;
    reader.push(Code::Word(word));
    Ok(())
}

// A token of a symbol, and a code.
fn coded(reader: &mut Reader, symbol: Symbol, code: Code) -> Result<(), Refusal>
    requires symbol { is_token symbol ≡ true }
    requires fits { operand_of code < 2 ^ 32 }
    ensures { Answers (λ _. coded_rule (number_of symbol) code) reader.old reader.new result }
{
    reader.expect(symbol)?;
    reader.push(code);
    Ok(())
}

// One of two words, each with its code. In line: the two codes are known there.
#[inline(always)]
fn either(
    reader: &mut Reader,
    first: Symbol,
    c: Code,
    second: Symbol,
    d: Code,
) -> Result<(), Refusal>
    requires first { is_token first ≡ true }
    requires c_fits { operand_of c < 2 ^ 32 }
    requires second { is_token second ≡ true }
    requires d_fits { operand_of d < 2 ^ 32 }
    ensures { Answers (λ _. either_rule (number_of first) c (number_of second) d) reader.old reader.new result }
{
    if reader.takes(first) {
        reader.push(c);
        return Ok(());
    }
    coded(reader, second, d)
}

// A number and a last word, and the code that the number makes.
fn measured<F: Fn(u32) -> Code>(reader: &mut Reader, last: Symbol, f: F) -> Result<(), Refusal>
    requires last { is_token last ≡ true }
    requires callable { F.IsAlwaysCallable f }
    requires fit { Fit (F.post f) }
    ensures { (g : ℕ → Code) → Makes (F.post f) g → Answers (λ _. measured_rule (number_of last) g) reader.old reader.new result }
{
    let n = reader.number(MAX_NUMBER)?;
    coded(reader, last, f(n))
}

// `from a to b` and a last word, after `from`.
fn range_from<G: Fn(u32, u32) -> Code>(
    reader: &mut Reader,
    last: Symbol,
    between: G,
) -> Result<(), Refusal>
    requires last { is_token last ≡ true }
    requires callable { G.IsAlwaysCallable between }
    requires fit { FitBoth (G.post between) }
    ensures { (g : ℕ → ℕ → Code) → MakesBoth (G.post between) g → Answers (λ _. range_from_rule (number_of last) g) reader.old reader.new result }
{
    let a = reader.number(MAX_NUMBER)?;
    reader.expect(Symbol::To)?;
    measured(reader, last, |b| between(a, b))
}

// `at least a` or `at most b`, and a last word, after `at`.
fn range_at<F: Fn(u32) -> Code, G: Fn(u32, u32) -> Code>(
    reader: &mut Reader,
    last: Symbol,
    least: F,
    between: G,
) -> Result<(), Refusal>
    requires last { is_token last ≡ true }
    requires least_callable { F.IsAlwaysCallable least }
    requires least_fit { Fit (F.post least) }
    requires callable { G.IsAlwaysCallable between }
    requires fit { FitBoth (G.post between) }
    ensures { (f : ℕ → Code) (g : ℕ → ℕ → Code) → Makes (F.post least) f → MakesBoth (G.post between) g → Answers (λ _. range_at_rule (number_of last) f g) reader.old reader.new result }
{
    if reader.takes(Symbol::Least) {
        return measured(reader, last, least);
    }
    reader.expect(Symbol::Most)?;
    measured(reader, last, |b| between(0, b))
}

// "`exactly`, `at least` .., `at most` (from 0) or `from .. to`", and a last word: `least` makes the code of `at least a`, `between` that of the other ranges,
// each from a number to a number.
fn range<F: Fn(u32) -> Code, G: Fn(u32, u32) -> Code>(
    reader: &mut Reader,
    last: Symbol,
    least: F,
    between: G,
) -> Result<(), Refusal>
    requires last { is_token last ≡ true }
    requires least_callable { F.IsAlwaysCallable least }
    requires least_fit { Fit (F.post least) }
    requires callable { G.IsAlwaysCallable between }
    requires fit { FitBoth (G.post between) }
    ensures { (f : ℕ → Code) (g : ℕ → ℕ → Code) → Makes (F.post least) f → MakesBoth (G.post between) g → Answers (λ _. range_rule (number_of last) f g) reader.old reader.new result }
{
    if reader.takes(Symbol::Exactly) {
        return measured(reader, last, |n| between(n, n));
    }
    if reader.takes(Symbol::From) {
        return range_from(reader, last, between);
    }
    reader.expect(Symbol::At)?;
    range_at(reader, last, least, between)
}

// The words of a phrase, "one to eight word numbers", and the closing quote.
fn words(reader: &mut Reader) -> Result<(), Refusal>
    ensures { Answers (λ _. words_rule max_words 0) reader.old reader.new result }
{
    word(reader)?;
    for size in 1..MAX_WORDS {
        if reader.takes(Symbol::Quote) {
            reader.push(Code::Phrase(size));
            return Ok(());
        }
        word(reader)?;
    }
    coded(reader, Symbol::Quote, Code::Phrase(MAX_WORDS))
}

// FTWords FTTimes?, after the opening quote. "Typed, `occurs` with one of the four ranges and `times` follows a phrase; `at least` is kind 17."
// A call of its own, so that a parenthesis doesn't pay for what it keeps.
#[inline(never)]
pub fn phrase(reader: &mut Reader) -> Result<(), Refusal>
    ensures { Answers (λ _. phrase_rule) reader.old reader.new result }
{
    words(reader)?;
    if !reader.takes(Symbol::Occurs) {
        return Ok(());
    }
    range(
        reader,
        Symbol::Times,
        |a| Code::Occurs(Times::AtLeast(a)),
        |a, b| Code::Occurs(Times::FromTo { least: a, most: b }),
    )
}

// Does a filter begin with this symbol?
fn starts_filter(symbol: Symbol) -> bool
    ensures { result ≡ (leb k_ordered (number_of symbol) && leb (number_of symbol) k_entire) }
{
    matches!(
        symbol,
        Symbol::Ordered
            | Symbol::Window
            | Symbol::Distance
            | Symbol::Same
            | Symbol::Different
            | Symbol::At
            | Symbol::Entire
    )
}

fn distance(least: u32, most: u32) -> Code
    ensures { result ≡ Code.Filter (Filter.Distance least most) }
{
    Code::Filter(Filter::Distance { least, most })
}

// One of two filters, by the unit.
fn by_unit(reader: &mut Reader, sentence: Filter, paragraph: Filter) -> Result<(), Refusal>
    requires sentence_fits { operand_of (Code.Filter sentence) < 2 ^ 32 }
    requires paragraph_fits { operand_of (Code.Filter paragraph) < 2 ^ 32 }
    ensures { Answers (λ _. either_rule k_sentence (Code.Filter sentence) k_paragraph (Code.Filter paragraph)) reader.old reader.new result }
{
    either(
        reader,
        Symbol::Sentence,
        Code::Filter(sentence),
        Symbol::Paragraph,
        Code::Filter(paragraph),
    )
}

// FTPosFilter, by its first word.
fn filter(reader: &mut Reader) -> Result<(), Refusal>
    ensures { Answers (λ _. filter_rule) reader.old reader.new result }
{
    let symbol = reader.symbol();
    if !starts_filter(symbol) {
        return Err(reader.unexpected());
    }
    reader.pass();
    match symbol {
        Symbol::Ordered => {
            reader.push(Code::Filter(Filter::Ordered));
            Ok(())
        }
        Symbol::Window => measured(reader, Symbol::Words, |n| Code::Filter(Filter::Window(n))),
        // "`at least` (to 4,095)"
        Symbol::Distance => range(
            reader,
            Symbol::Words,
            |least| distance(least, MAX_DISTANCE),
            distance,
        ),
        Symbol::Same => by_unit(reader, Filter::SameSentence, Filter::SameParagraph),
        Symbol::Different => by_unit(
            reader,
            Filter::DifferentSentence,
            Filter::DifferentParagraph,
        ),
        Symbol::At => either(
            reader,
            Symbol::Start,
            Code::Filter(Filter::AtStart),
            Symbol::End,
            Code::Filter(Filter::AtEnd),
        ),
        _ => coded(reader, Symbol::Content, Code::Filter(Filter::EntireContent)),
    }
}

// FTPosFilter*. A call of its own, as a phrase is.
#[inline(never)]
pub fn filters(reader: &mut Reader) -> Result<(), Refusal>
    ensures { AnswersMany filters_rule reader.old reader.new result }
{
    while starts_filter(reader.symbol()) {
        filter(reader)?;
    }
    Ok(())
}
