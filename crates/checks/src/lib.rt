// The checks of the inputs, with the lengths of the lent memory: refusals 1 to 8, 12 and 13, or the selection's m.

#![tactic(auto)]

ghost use Rattle.std.specs.Prelude.{Err, ◌≡◌};
ghost use Rattle.model.specs.Answers.{checked_of};
ghost use Rattle.model.specs.Checks.{input_refusal, listing_checks, quick_checks};
ghost use Rattle.model.specs.Section.{size};
ghost use Rattle.model.specs.declared.Refusal.{Refusal};

use model::{BUFFER_LENGTH, Inputs, Reason, Refusal, WORK_LENGTH};

// The refusal that a check answers: for a caller that takes the answer apart by `let .. else`, whose `else` can't bind it. Where the check accepts there is none,
// and nothing is promised of what this returns.
pub fn refusal_of(checked: Result<u32, Refusal>) -> Refusal
    ensures { (refusal : Refusal) → checked ≡ Err refusal → result ≡ refusal }
{
    match checked {
        Err(refusal) => refusal,
        Ok(_) => Refusal {
            reason: Reason::WrongSection,
            place: 0,
        },
    }
}

// Refusals 1 to 7, 12 and 13.
#[tactic(auto, unfolding(model::specs::Checks::input_refusal))]
pub fn check_inputs(inputs: &Inputs) -> Result<u32, Refusal>
    ensures { result ≡ checked_of (size inputs.now.selection.now) (input_refusal inputs.now.section.now inputs.now.families.now inputs.now.selection.now) }
{
    section::check_section(inputs.section)?;
    families::check_families(inputs.families)?;
    selection::check_selection(inputs.selection)
}

// What the quick answer refuses before its walk.
#[tactic(auto, unfolding(model::specs::Checks::quick_checks))]
pub fn check_quick(inputs: &Inputs, work: usize) -> Result<u32, Refusal>
    ensures { result ≡ checked_of (size inputs.now.selection.now) (quick_checks inputs.now.section.now inputs.now.families.now inputs.now.selection.now work) }
{
    let m = check_inputs(inputs)?;
    Reason::ShortMemory.refuse_unless(WORK_LENGTH <= work)?;
    Ok(m)
}

// What the full listing refuses before any list is built: the same, and a short listing buffer.
#[tactic(auto, unfolding(model::specs::Checks::listing_checks))]
pub fn check_listing(inputs: &Inputs, work: usize, buffer: usize) -> Result<u32, Refusal>
    ensures { result ≡ checked_of (size inputs.now.selection.now) (listing_checks inputs.now.section.now inputs.now.families.now inputs.now.selection.now work buffer) }
{
    let m = check_inputs(inputs)?;
    Reason::ShortMemory.refuse_unless(WORK_LENGTH <= work && BUFFER_LENGTH <= buffer)?;
    Ok(m)
}
