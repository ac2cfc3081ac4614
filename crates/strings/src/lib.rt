// Strings in lent memory: each is two numbers, its span (start × 65,536 + end) and its tag (query position × 4, plus 2 if contiguous, plus 1 if an
// exclude), as in document 01's listing. A slice `&[u32]` holds strings one after the other; the functions here read such slices, whatever they hold.

#![tactic(auto)]

pub mod covering;
pub mod halves;
pub mod ordering;
mod packed;
pub mod positions;
pub mod spans;

pub use packed::{Packed, Sort, Strings, strings_in};
pub use positions::Run;
pub use spans::{end_of, span_of, start_of};
