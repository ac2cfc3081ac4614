// The tokens of a text, one at a time, from a position in it.

#![tactic(auto)]

pub mod symbols;

ghost use Rattle.std.specs.Prelude.{◌≡◌, ◌+◌, ◌*◌, ◌-◌, ◌≤◌, eqb, length};
ghost use Rattle.model.specs.Tokens.{number_from};
ghost use Rattle.grammar.specs.Stream.{run_length, sort_of};
ghost use Rattle.grammar.specs.Symbols.{symbol_of};
ghost use Rattle.scanner.specs.Symbols.{named};
ghost use Rattle.scanner.specs.Scanned.{Scanned, capped};

use symbols::Symbol;

// All numbers above 4,294,967,295 are the same to the reader.
const CEILING: u64 = 4294967296;

// A token: what it is to the rules, and where its bytes begin and end.
#[derive(Clone, Copy)]
pub struct Token {
    pub symbol: Symbol,
    pub start: usize,
    pub end: usize,
}

// Each small letter counts as `a`, each digit as `0`, any other byte as itself.
#[tactic(auto, using(std::proofs::lemmas::Bool::Decides::nat_tests), unfolding(grammar::specs::Stream::sort_of))]
fn sort_of(b: u8) -> u8
    ensures value { result ≡ sort_of b }
    ensures of_itself { sort_of result ≡ result }
{
    match b {
        b'0'..=b'9' => b'0',
        b'a'..=b'z' => b'a',
        _ => b,
    }
}

// Is a byte of this sort? By a test for each sort, which a run of letters or digits takes no longer for than a run of blanks.
#[tactic(auto, using(std::proofs::lemmas::Bool::Decides::nat_tests), unfolding(grammar::specs::Stream::sort_of))]
fn is_of(b: u8, sort: u8) -> bool
    requires { sort_of sort ≡ sort }
    ensures { result ≡ eqb (sort_of b) sort }
{
    match sort {
        b'a' => b.is_ascii_lowercase(),
        b'0' => b.is_ascii_digit(),
        _ => b == sort,
    }
}

// How many bytes of a sort come first.
fn run_length(bytes: &[u8], sort: u8) -> usize
    requires { sort_of sort ≡ sort }
    ensures value { result ≡ run_length sort bytes.now }
    ensures within { result ≤ length bytes.now }
{
    bytes.iter().take_while(|b| is_of(**b, sort)).count()
}

// The symbol of a token of this sort and these bytes.
#[inline(always)]
fn symbol_of(sort: u8, bytes: &[u8]) -> Symbol
    ensures { result ≡ named (symbol_of (record { sort = sort; place = 0; bytes = bytes.now })) }
{
    match sort {
        b'a' => symbols::word_symbol(bytes),
        b'0' => Symbol::Number,
        b'"' => Symbol::Quote,
        b'(' => Symbol::Opening,
        b')' => Symbol::Closing,
        _ => Symbol::OtherSign,
    }
}

// The first token from a position on. In line: a reader keeps the token where it is made.
#[inline(always)]
pub fn token_at(text: &[u8], at: usize) -> Token
    requires { at ≤ length text.now }
    ensures { Scanned text.now at result }
{
    let start = at + run_length(&text[at..], b' ');
    if start == text.len() {
        return Token {
            symbol: Symbol::NoMore,
            start,
            end: start,
        };
    }
    let sort = sort_of(text[start]);
    let size = match sort {
        b'a' | b'0' => run_length(&text[start..], sort),
        _ => 1,
    };
    let end = start + size;
    let symbol = symbol_of(sort, &text[start..end]);
    Token { symbol, start, end }
}

// Ten times a number and a digit, with the same ceiling.
fn next_value(v: u64, digit: u8) -> u64
    ensures { result ≡ capped (v * 10 + (digit - 48)) }
{
    let digit = u64::from(digit.saturating_sub(b'0'));
    v.saturating_mul(10).saturating_add(digit).min(CEILING)
}

// The number that digits write, with the ceiling.
pub fn value_of(digits: &[u8]) -> u64
    ensures { result ≡ capped (number_from 0 digits.now) }
{
    digits.iter().fold(0u64, |v, b| next_value(v, *b))
}
