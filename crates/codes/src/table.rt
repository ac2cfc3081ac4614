// Kinds and operands against document 01's table, and F-3's two rows.
ghost use Rattle.std.specs.Prelude.{◌&&◌, ◌≡◌, leb};
ghost use Rattle.model.specs.Checks.{filter_operand_fits, operand_fits, range_fits, times_operand_fits, unknown_kind, wrong_operand};

use super::places::first_failing;
use model::{MAX_DISTANCE, MAX_TIMES, MAX_WAITING, MAX_WINDOW, RADIX};

// F-3: "18 and up are unknown". By ranges of the number, the form that document 01 names.
fn is_unknown(kind: u32) -> bool
    ensures { result ≡ leb 18 kind }
{
    match kind {
        0..=1 | 2..=5 | 6..=15 | 16..=17 => false,
        _ => true,
    }
}

fn is_within(least: u32, number: u32, most: u32) -> bool
    ensures { result ≡ (leb least number && leb number most) }
{
    least <= number && number <= most
}

// "a × 65,536 + b, a ≤ b ≤ 4,095"
fn range_fits(operand: u32) -> bool
    ensures { result ≡ range_fits operand }
{
    is_within(operand / RADIX, operand % RADIX, MAX_DISTANCE)
}

// The operands of the filters.
#[tactic(auto, unfolding(model::specs::Checks::filter_operand_fits))]
fn filter_operand_fits(kind: u32, operand: u32) -> bool
    ensures { result ≡ filter_operand_fits kind operand }
{
    match kind {
        7 => is_within(1, operand, MAX_WINDOW),
        8 => range_fits(operand),
        _ => operand == 0,
    }
}

// The operands of the two occurs.
#[tactic(auto, unfolding(model::specs::Checks::times_operand_fits))]
fn times_operand_fits(kind: u32, operand: u32) -> bool
    ensures { result ≡ times_operand_fits kind operand }
{
    match kind {
        16 => range_fits(operand),
        _ => operand <= MAX_TIMES,
    }
}

// "operand outside the table", told by the kind
#[tactic(auto, unfolding(model::specs::Checks::operand_fits))]
fn operand_fits(kind: u32, operand: u32) -> bool
    ensures { result ≡ operand_fits kind operand }
{
    match kind {
        0 => true,
        1 => is_within(1, operand, MAX_WAITING),
        2..=5 => operand == 0,
        6..=15 => filter_operand_fits(kind, operand),
        16..=17 => times_operand_fits(kind, operand),
        // unknown, and refused before its operand is asked for
        _ => true,
    }
}

// Refusal 4: the first code whose kind is unknown.
pub fn unknown_kind(selection: &[u32]) -> Option<u32>
    ensures { result ≡ unknown_kind selection.now }
{
    first_failing(selection, |place| {
        is_unknown(slices::number_at(selection, place as usize))
    })
}

// Refusal 5: the first code whose operand is outside the table.
pub fn wrong_operand(selection: &[u32]) -> Option<u32>
    ensures { result ≡ wrong_operand selection.now }
{
    first_failing(selection, |place| {
        let kind = slices::number_at(selection, place as usize);
        !operand_fits(kind, slices::second_at(selection, place))
    })
}
