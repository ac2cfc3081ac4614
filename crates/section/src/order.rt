// A place, and what is out of order: a sentence, a paragraph, a position.
ghost use Rattle.std.specs.Prelude.{◌≡◌, ◌/◌, ◌%◌, ◌||◌};
ghost use Rattle.model.specs.Checks.{breaks_order, falls_below};
ghost use Rattle.model.specs.Limits.{radix};
ghost use Rattle.section.specs.Looks.{last_after};

use model::{Paragraph, RADIX, Sentence};

// "A place is paragraph × 65,536 + sentence."
#[derive(Clone, Copy)]
pub struct Place(pub u32);

impl Place {
    pub fn sentence(self) -> Sentence
        ensures { result.0 ≡ self.0 % radix }
    {
        Sentence(self.0 % RADIX)
    }

    pub fn paragraph(self) -> Paragraph
        ensures { result.0 ≡ self.0 / radix }
    {
        Paragraph(self.0 / RADIX)
    }
}

// "a nonzero one below the last nonzero one before it"
fn falls_below(last: Sentence, here: Sentence) -> bool
    ensures { result ≡ falls_below last.0 here.0 }
{
    here.0 != 0 && here < last
}

// "below that of the position before it, or just one of the two is zero". By `|`: with a branch between the two tests a section with headings takes up to
// 1.6 times as long.
fn breaks_order(before: Paragraph, here: Paragraph) -> bool
    ensures { result ≡ breaks_order before.0 here.0 }
{
    (here < before) | ((here.0 == 0) != (before.0 == 0))
}

// Is a position faulty? By its place, the place before, and the last nonzero sentence before it.
pub fn is_faulty(before: Place, here: Place, last: Sentence) -> bool
    ensures { result ≡ (falls_below last.0 (here.0 % radix) || breaks_order (before.0 / radix) (here.0 / radix)) }
{
    falls_below(last, here.sentence()) || breaks_order(before.paragraph(), here.paragraph())
}

// The last nonzero sentence at and before a position, by the one before it.
pub fn last_after(last: Sentence, here: Sentence) -> Sentence
    ensures { result.0 ≡ last_after last.0 here.0 }
{
    if here.0 == 0 { last } else { here }
}
