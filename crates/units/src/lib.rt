// The tests of same and different. A unit is a sentence or a paragraph. What is asked of units is said once, over the trait `Unit`: neither counting's numbers
// are taken for the other's.

#![tactic(auto)]

pub mod different;
pub mod same;
mod units;

ghost use Rattle.std.specs.Prelude.{ℕ, Some, not, refl, ◌≡◌, eqb};
ghost use Rattle.std.specs.Ordering.{nat_cmp};
ghost use Rattle.model.specs.Section.{Section, section_of};

use model::{Paragraph, Position, Sentence};

// A counting of a section's tokens: by sentences, or by paragraphs.
pub trait Unit: Copy + Ord {
    // a unit's number
    ghost number: { Self → ℕ };

    // "A sentence or paragraph of a span's start or end is that of the token there": its number, by the section and the position
    ghost unit_in: { Section → ℕ → ℕ };

    // The unit of the token at a position.
    fn at(section: &[u32], p: Position) -> Self
        ensures { number result ≡ unit_in (section_of section.now) p.0 };

    // Is it a unit, and not the zero that stands for none?
    fn is_nonzero(self) -> bool
        ensures { result ≡ not (eqb (number self) 0) };

    // units are compared by their numbers
    ghost eq_is: { (a b : Self) → Self.eq a b ≡ eqb (number a) (number b) };

    ghost partial_cmp_is: { (a b : Self) → Self.partial_cmp a b ≡ Some (nat_cmp (number a) (number b)) };
}

impl Unit for Sentence {
    ghost number = { λ s. s.0 };

    ghost unit_in = { λ s. s.sentence };

    ghost eq_is = { λ a b. refl };

    ghost partial_cmp_is = { λ a b. refl };

    fn at(section: &[u32], p: Position) -> Sentence {
        section::sentence_at(section, p)
    }

    fn is_nonzero(self) -> bool {
        self.0 != 0
    }
}

impl Unit for Paragraph {
    ghost number = { λ p. p.0 };

    ghost unit_in = { λ s. s.paragraph };

    ghost eq_is = { λ a b. refl };

    ghost partial_cmp_is = { λ a b. refl };

    fn at(section: &[u32], p: Position) -> Paragraph {
        section::paragraph_at(section, p)
    }

    fn is_nonzero(self) -> bool {
        self.0 != 0
    }
}
