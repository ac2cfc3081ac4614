// A family table, document 02's F-6: its check, the family of a word, whether a word fits a token, and all words that fit one.

#![tactic(auto)]

mod kin; // the words of a family
mod order; // do the words rise?
mod table; // an accepted table

ghost use Rattle.std.specs.Prelude.{◌≡◌};
ghost use Rattle.model.specs.Answers.{checked_of};
ghost use Rattle.model.specs.Checks.{families_refusal};
ghost use Rattle.model.specs.Section.{size};

pub use kin::Kin;
use model::{MAX_ENTRIES, Reason, Refusal};
pub use table::Table;

// Refusal 13, with its place; else the number of entries.
pub fn check_families(families: &[u32]) -> Result<u32, Refusal>
    ensures { result ≡ checked_of (size families.now) (families_refusal families.now) }
{
    Reason::WrongFamilies.refuse_unless(slices::well_sized(families, 0, MAX_ENTRIES))?;
    let m = families[0];
    Reason::WrongFamilies.refuse_at(order::first_out_of_order(families, m as usize))?;
    Ok(m)
}
