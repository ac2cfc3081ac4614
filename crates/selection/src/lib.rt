// A selection: its parts, and its check. Every public function takes any slice.

#![tactic(auto)]

pub mod parts; // where a part starts, and what stands in it
pub mod waiting; // the waiting rule: refusal 6

ghost use Rattle.std.specs.Prelude.{true, ◌≡◌};
ghost use Rattle.model.specs.Answers.{checked_of};
ghost use Rattle.model.specs.Checks.{not_over_phrase, not_under_mild_not, selection_refusal};
ghost use Rattle.model.specs.Kinds.{shapes_of};
ghost use Rattle.model.specs.Parts.{well_formed};
ghost use Rattle.model.specs.Section.{size};

use codes::places::first_failing;
use model::{MAX_CODES, Reason, Refusal};

// Refusal 12: the first occurs "where the thing below isn't a phrase". The code just before it ends that thing.
fn not_over_phrase(selection: &[u32]) -> Option<u32>
    requires { well_formed (shapes_of selection.now) ≡ true }
    ensures { result ≡ not_over_phrase selection.now }
{
    first_failing(selection, |place| {
        codes::is_occurs(codes::code_at(selection, place))
            && !codes::is_phrase(codes::code_at(selection, place - 1))
    })
}

// Refusal 7: the first mild not with a not, or an occurs from a to b, in either side.
fn not_under_mild_not(selection: &[u32]) -> Option<u32>
    requires { well_formed (shapes_of selection.now) ≡ true }
    ensures { result ≡ not_under_mild_not selection.now }
{
    first_failing(selection, |place| {
        codes::is_mild_not(codes::code_at(selection, place)) && parts::has_not(selection, place)
    })
}

// Refusals 3 to 7, and 12 after 6, each over the whole input before the next.
#[tactic(auto, using(crate::proofs::CodeLoopsLaws::none_misfits), unfolding(model::specs::Checks::selection_refusal, model::specs::Checks::tried, model::specs::Checks::wrong_selection))]
pub fn check_selection(selection: &[u32]) -> Result<u32, Refusal>
    ensures { result ≡ checked_of (size selection.now) (selection_refusal selection.now) }
{
    Reason::WrongSelection.refuse_unless(slices::well_sized(selection, 1, MAX_CODES))?;
    Reason::UnknownKind.refuse_at(codes::table::unknown_kind(selection))?;
    Reason::WrongOperand.refuse_at(codes::table::wrong_operand(selection))?;
    Reason::WrongShape.refuse_at(waiting::wrong_shape(selection))?;
    Reason::NotOverPhrase.refuse_at(not_over_phrase(selection))?;
    Reason::NotUnderMildNot.refuse_at(not_under_mild_not(selection))?;
    Ok(slices::number_at(selection, 0))
}
