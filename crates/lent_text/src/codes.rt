// Codes by their kinds and operands, as a selection has them.
ghost use Rattle.std.specs.Prelude.{◌≡◌, ◌-◌, ◌^◌, ◌<◌, [], ◌∷◌};
ghost use Rattle.model.specs.Selection.{kind_of, operand_of};
ghost use Rattle.lent_text.specs.Written.{Written, no_codes};

use model::{Code, Filter, MAX_CODES, Pair, RADIX, Times};

// How many codes there are, and the numbers of the first 64.
#[derive(Drop)]
pub struct Codes {
    pub count: u32,
    pub kinds: [u32; 64],
    pub operands: [u32; 64],
}

fn kind_of(code: Code) -> u32
    ensures { result ≡ kind_of code }
{
    match code {
        Code::Word(_) => 0,
        Code::Phrase(_) => 1,
        Code::Combine(Pair::Or) => 2,
        Code::Combine(Pair::And) => 3,
        Code::Not => 4,
        Code::Combine(Pair::MildNot) => 5,
        Code::Filter(Filter::Ordered) => 6,
        Code::Filter(Filter::Window(_)) => 7,
        Code::Filter(Filter::Distance { .. }) => 8,
        Code::Filter(Filter::SameSentence) => 9,
        Code::Filter(Filter::SameParagraph) => 10,
        Code::Filter(Filter::DifferentSentence) => 11,
        Code::Filter(Filter::DifferentParagraph) => 12,
        Code::Filter(Filter::AtStart) => 13,
        Code::Filter(Filter::AtEnd) => 14,
        Code::Filter(Filter::EntireContent) => 15,
        Code::Occurs(Times::FromTo { .. }) => 16,
        Code::Occurs(Times::AtLeast(_)) => 17,
    }
}

fn operand_of(code: Code) -> u32
    requires { operand_of code < 2 ^ 32 }
    ensures { result ≡ operand_of code }
{
    match code {
        Code::Word(n)
        | Code::Phrase(n)
        | Code::Filter(Filter::Window(n))
        | Code::Occurs(Times::AtLeast(n)) => n,
        Code::Filter(Filter::Distance { least, most })
        | Code::Occurs(Times::FromTo { least, most }) => least * RADIX + most,
        _ => 0,
    }
}

impl Codes {
    pub(crate) fn none() -> Codes
        ensures { result ≡ no_codes }
    {
        Codes {
            count: 0,
            kinds: [0; 64],
            operands: [0; 64],
        }
    }

    // One code more. The first 64 are written, those past them are counted.
    pub fn push(&mut self, code: Code)
        requires fits { operand_of code < 2 ^ 32 }
        requires few { self.old.count < 2 ^ 32 - 1 }
        ensures { Written (code ∷ []) self.old self.new }
    {
        if self.count < MAX_CODES {
            let at = self.count as usize;
            self.kinds[at] = kind_of(code);
            self.operands[at] = operand_of(code);
        }
        self.count += 1;
    }
}
