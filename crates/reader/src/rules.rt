// The rules of the grammar that call each other "while the text left grows shorter": remaining length and rule level fall. The compiler makes one function
// of them, whose frame is what a parenthesis costs.
ghost use Rattle.std.specs.Prelude.{◌≤◌, ℕ, suc, MatchResult};
ghost use Rattle.std.specs.Bool.{MatchBool};
ghost use Rattle.grammar.specs.Grammar.{Rule, ft_and, ft_mild_not, ft_or, ft_primary, ft_selection, ft_unary_not};
ghost use Rattle.lent_text.specs.State.{left};
ghost use Rattle.flat_rules.specs.Answers.{Answers, Further};
ghost use Rattle.reader.specs.Levels.{Broken, Ended, Operated, level_rule};

use lent_text::Reader;
use model::{Code, Pair, Refusal};
use scanner::symbols::Symbol;

// Passes an operator, if one begins.
fn operator(reader: &mut Reader, pair: Pair) -> Result<bool, Refusal>
    ensures { MatchResult result (λ is. MatchBool is (Operated pair reader.old reader.new) (Ended pair reader.old reader.new)) (Broken pair reader.old) }
{
    match pair {
        Pair::Or => Ok(reader.takes(Symbol::Ftor)),
        Pair::And => Ok(reader.takes(Symbol::Ftand)),
        Pair::MildNot => {
            let is = reader.takes(Symbol::Not);
            if is {
                reader.expect(Symbol::In)?;
            }
            Ok(is)
        }
    }
}

// A level: an operand, and a row of operators with their operands. `more` says whether an operator was read before the operand: with one call of the
// operand before the loop and one in it, a parenthesis takes 176 bytes of stack and not the 112 that include/jullpinay.h states.
// (`pub(crate)`, since the proofs of the rules that it is given name its parameter's type.)
pub(crate) fn level<F: Fn(&mut Reader) -> Result<(), Refusal>>(
    reader: &mut Reader,
    pair: Pair,
    operand: F,
) -> Result<(), Refusal>
    requires callable { (x : _) → left x.now ≤ left reader.old → F.pre operand x }
    requires goes { (x : _) (u : _) (y : _) → left x.now ≤ left reader.old → F.post operand x (Ok u) y → Further x.now y.now }
    ensures { (rule : ℕ → Rule) → ((x : _) (r : _) (y : _) → left x.now ≤ left reader.old → F.post operand x r y → Answers rule x.now y.now r) → Answers (level_rule pair rule) reader.old reader.new result }
{
    let mut more = false;
    loop {
        operand(reader)?;
        if more {
            reader.push(Code::Combine(pair));
        }
        if !operator(reader, pair)? {
            return Ok(());
        }
        more = true;
    }
}

// FTSelection = FTOr FTPosFilter*
#[cycle(rules)]
pub fn selection(reader: &mut Reader) -> Result<(), Refusal>
    ensures { Answers (λ n. ft_selection (suc n)) reader.old reader.new result }
{
    ors(reader)?;
    flat_rules::filters(reader)
}

// FTOr = FTAnd ('ftor' FTAnd)*
#[cycle(rules)]
fn ors(reader: &mut Reader) -> Result<(), Refusal>
    ensures { Answers (λ n. ft_or n (ft_selection n)) reader.old reader.new result }
{
    level(reader, Pair::Or, ands)
}

// FTAnd = FTMildNot ('ftand' FTMildNot)*
#[cycle(rules)]
fn ands(reader: &mut Reader) -> Result<(), Refusal>
    ensures { Answers (λ n. ft_and n (ft_selection n)) reader.old reader.new result }
{
    level(reader, Pair::And, milds)
}

// FTMildNot = FTUnaryNot ('not' 'in' FTUnaryNot)*
#[cycle(rules)]
fn milds(reader: &mut Reader) -> Result<(), Refusal>
    ensures { Answers (λ n. ft_mild_not n (ft_selection n)) reader.old reader.new result }
{
    level(reader, Pair::MildNot, nots)
}

// FTUnaryNot = 'ftnot'? FTPrimary
#[cycle(rules)]
fn nots(reader: &mut Reader) -> Result<(), Refusal>
    ensures { Answers (λ n. ft_unary_not n (ft_selection n)) reader.old reader.new result }
{
    let negated = reader.takes(Symbol::Ftnot);
    primary(reader)?;
    if negated {
        reader.push(Code::Not);
    }
    Ok(())
}

// FTPrimary = FTWords FTTimes? | '(' FTSelection ')'
#[cycle(rules)]
fn primary(reader: &mut Reader) -> Result<(), Refusal>
    ensures { Answers (λ n. ft_primary n (ft_selection n)) reader.old reader.new result }
{
    if reader.takes(Symbol::Quote) {
        return flat_rules::phrase(reader);
    }
    reader.expect(Symbol::Opening)?;
    selection(reader)?;
    reader.expect(Symbol::Closing)
}
