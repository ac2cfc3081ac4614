// What the program `ftlist` reads and what it prints, as functions on slices.

#![tactic(auto)]

pub mod printing; // an answer, and the listing after it
pub mod reading; // little-endian numbers, and where the section ends among them
mod lines; // a line a match
mod texts; // the text of a string
mod words; // bytes, words and numbers

pub use printing::put_listing_text;
pub use reading::{read_numbers, section_length};

// How many bytes a text takes at most: 12 + 2 × 256 + 17 × 512.
pub const TEXT_LENGTH: usize = 9228;
// "Over 65,536 bytes"
pub const MAX_INPUT: usize = 65536;
// As many numbers.
pub const MAX_NUMBERS: usize = 16384;
