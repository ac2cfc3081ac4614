// "The reader goes over the lent text with a position in it": a struct that holds the text, the token at the position, and the codes read before it. The
// grammar's rules go over the text by its methods.

#![tactic(auto)]

pub mod codes; // the codes, in numbers
mod lent; // the text and a position alone

ghost use Rattle.std.specs.Prelude.{◌≡◌, ◌+◌, ◌^◌, ◌≤◌, ◌<◌, length, true, MatchResult};
ghost use Rattle.std.specs.Bool.{MatchBool};
ghost use Rattle.model.specs.declared.Reason.TheVariants.{UnexpectedToken};
ghost use Rattle.model.specs.Limits.{max_text};
ghost use Rattle.model.specs.Selection.{operand_of};
ghost use Rattle.grammar.specs.Stream.{place_in, value_in};
ghost use Rattle.grammar.specs.Symbols.{symbol_in};
ghost use Rattle.scanner.specs.Scanned.{capped};
ghost use Rattle.scanner.specs.Symbols.{is_token, named};
ghost use Rattle.lent_text.specs.State.{Begins, Kept, Missed, Numbered, Passed, Pushed, Resumed, Took, Unnumbered, left, stream_of};

use codes::Codes;
pub use lent::{Lent, copy_from, reader_of, rest_of, text_of};
use model::{Code, Reason, Refusal};
use scanner::Token;
use scanner::symbols::Symbol;
use std::marker::Model;

#[derive(Drop)]
pub struct Reader<'a> {
    text: &'a [u8],
    token: Token,
    codes: Codes,
}

impl<'a> Model for Reader<'a> {
    ghost use Rattle.lent_text.specs.State.{State, Held};

    ghost Value = { State };

    ghost view = { λ r. record { text = r.text.now; at = r.token.start; codes = r.codes } };

    ghost invariant = { λ r. Held r.text.now r.token r.codes.count };
}

impl<'a> Reader<'a> {
    // A reader at a position of a text, with the codes read before it.
    pub fn resumed(text: &'a [u8], at: usize, codes: Codes) -> Reader<'a>
        requires short { length text.now ≤ max_text }
        requires inside { at ≤ length text.now }
        requires few { codes.count ≤ at }
        ensures { Resumed text.entry.now at codes result }
    {
        Reader {
            text,
            token: scanner::token_at(text, at),
            codes,
        }
    }

    // A reader at the start of a text.
    pub fn over(text: &'a [u8]) -> Reader<'a>
        requires { length text.now ≤ max_text }
        ensures { Begins text.entry.now result }
    {
        Reader::resumed(text, 0, Codes::none())
    }

    // The codes read.
    pub fn codes(&self) -> &Codes
        ensures { result.now ≡ self.now.codes }
    {
        &self.codes
    }

    // The symbol of the token at the position.
    pub fn symbol(&self) -> Symbol
        ensures symbol { result ≡ named (symbol_in (stream_of self.now)) }
        ensures few { self.now.codes.count + left self.now ≤ max_text }
    {
        self.token.symbol
    }

    // The grammar doesn't allow that token.
    pub fn unexpected(&self) -> Refusal
        ensures { result ≡ record { reason = UnexpectedToken; place = place_in (stream_of self.now) } }
    {
        Refusal {
            reason: Reason::UnexpectedToken,
            place: self.token.start as u32 + 1,
        }
    }

    // Goes to the next token. A call of its own, so that a parenthesis doesn't pay for what it keeps.
    #[inline(never)]
    pub fn pass(&mut self)
        ensures passed { Passed self.old self.new }
        ensures few { self.old.codes.count + left self.old ≤ max_text }
    {
        let next = scanner::token_at(self.text, self.token.end);
        // field by field: the gap behind the symbol would be copied too
        self.token.symbol = next.symbol;
        self.token.start = next.start;
        self.token.end = next.end;
    }

    // Passes a token of this symbol, if one is next.
    pub fn takes(&mut self, symbol: Symbol) -> bool
        requires { is_token symbol ≡ true }
        ensures { MatchBool result (Took symbol self.old self.new) (Kept symbol self.old self.new) }
    {
        let is = self.symbol() == symbol;
        if is {
            self.pass();
        }
        is
    }

    // Passes a token of this symbol.
    pub fn expect(&mut self, symbol: Symbol) -> Result<(), Refusal>
        requires { is_token symbol ≡ true }
        ensures { MatchResult result (λ _. Took symbol self.old self.new) (Missed symbol self.old) }
    {
        if self.takes(symbol) {
            Ok(())
        } else {
            Err(self.unexpected())
        }
    }

    // Writes a code.
    pub fn push(&mut self, code: Code)
        requires fits { operand_of code < 2 ^ 32 }
        requires few { self.old.codes.count + left self.old < max_text }
        ensures { Pushed code self.old self.new }
    {
        self.codes.push(code);
    }

    // The number that the token's bytes write, up to the ceiling.
    #[tactic(auto, unfolding(grammar::specs::Stream::value_in))]
    fn value(&self) -> u64
        ensures { result ≡ capped (value_in (stream_of self.now)) }
    {
        scanner::value_of(&self.text[self.token.start..self.token.end])
    }

    // Reads a number of at most so much.
    pub fn number(&mut self, most: u64) -> Result<u32, Refusal>
        requires { most < 2 ^ 32 }
        ensures { MatchResult result (λ v. Numbered most v self.old self.new) (λ r. Unnumbered most self.old r) }
    {
        if self.symbol() != Symbol::Number {
            return Err(self.unexpected());
        }
        let value = self.value();
        if value > most {
            return Err(Refusal {
                reason: Reason::OverLimit,
                ..self.unexpected()
            });
        }
        self.pass();
        Ok(value as u32)
    }
}
