// The part of a code: its code and every code below it.
ghost use Rattle.std.specs.Prelude.{false, ◌≡◌, ◌<◌};
ghost use Rattle.model.specs.Kinds.{shape_at, shape_of};
ghost use Rattle.model.specs.Lists.{any_of};
ghost use Rattle.model.specs.Parts.{is_not_code, part_start, stops, trees_needed};
ghost use Rattle.model.specs.Selection.{up_to};
ghost use Rattle.selection.specs.PartCodes.{part_codes};
ghost use Rattle.selection.specs.Phrases.{phrases_in, phrase_words};

use model::Code;

// Walking back with so many trees to find: does the part start after this code?
fn stops_at(code: Code, trees: usize) -> bool
    ensures { result ≡ stops (shape_of code) trees }
{
    !codes::is_word(code) && trees == 0
}

// The trees still to find before this code.
fn trees_needed(code: Code, trees: usize) -> usize
    requires trees_value { stops (shape_of code) trees ≡ false }
    requires trees_bound { trees < 4294967297 }
    ensures { result ≡ trees_needed (shape_of code) trees }
{
    if codes::is_word(code) {
        return trees;
    }
    let taken = codes::lists_taken(code);
    // a phrase is one found, and in place of any other code its lists are to find; as one sum it makes the walk's frame larger
    if taken == 0 {
        return trees - 1;
    }
    trees + (taken - 1)
}

// How many codes stand before the part that ends at a place.
pub fn part_start(selection: &[u32], place: u32) -> u32
    ensures { result ≡ part_start (shape_at selection.now) place }
{
    let mut trees: usize = 1;
    for c in (0..place).rev() {
        let code = codes::code_at(selection, c + 1);
        if stops_at(code, trees) {
            return c + 1;
        }
        trees = trees_needed(code, trees);
    }
    0
}

// Does what refusal 7 counts as a not stand in the part that ends at a place?
pub fn has_not(selection: &[u32], place: u32) -> bool
    ensures { result ≡ any_of is_not_code (part_codes (shape_at selection.now) place) }
{
    let before = part_start(selection, place);
    (before..place).any(|c| codes::is_not(codes::code_at(selection, c + 1)))
}

// How many phrases are among the codes up to a place: the rank of a phrase that stands there.
pub fn rank_at(selection: &[u32], place: u32) -> u32
    ensures { result ≡ phrases_in (up_to (shape_at selection.now) place) }
{
    let mut rank = 0;
    for c in 0..place {
        let code = codes::code_at(selection, c + 1);
        rank += codes::phrases_ended(code);
    }
    rank
}

// The words of the phrase at a place: the operands of the codes just before it, as a part of the selection.
pub fn phrase_words(selection: &[u32], place: u32) -> &[u32]
    ensures { result.now ≡ phrase_words selection.now place }
{
    let k = slices::second_at(selection, place);
    if place <= k {
        return &selection[..0];
    }
    let m = slices::number_at(selection, 0);
    let end = m as usize + place as usize;
    if selection.len() < end {
        return &selection[..0];
    }
    let start = end - k as usize;
    &selection[start..end]
}
