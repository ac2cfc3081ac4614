// The quick answer's walk, from the last code of a part.

#![tactic(auto)]

ghost use Rattle.std.specs.Prelude.{false, ◌≡◌, ℕ, ◌+◌, ◌≤◌};
ghost use Rattle.model.specs.declared.Code.TheVariants.{Filter as Filtered};
ghost use Rattle.model.specs.Families.{searched_of};
ghost use Rattle.model.specs.Kinds.{shape_at};
ghost use Rattle.model.specs.Parts.{part_count, part_start};
ghost use Rattle.model.specs.Selection.{code_at, up_to};
ghost use Rattle.model.specs.Walk.{answered, build as build_of, walk as walk_of};
ghost use Rattle.build.specs.PartList.{PartList};
ghost use Rattle.walk.specs.Steps.{decides as decides_of, goes_into};
ghost use Rattle.walk.specs.Walkable.{Walkable};

use model::{Answered, Code, Filter, Inputs, Pair, Quick, Refusal};

// How many codes other than words stand at the places lo + 1 to hi.
fn count_codes(selection: &[u32], lo: u32, hi: u32) -> u32
    requires { lo ≤ hi }
    ensures { part_count (up_to (shape_at selection.now) lo) + result ≡ part_count (up_to (shape_at selection.now) hi) }
{
    let mut n = 0;
    for c in lo..hi {
        let code = codes::code_at(selection, c + 1);
        n += codes::parts_ended(code);
    }
    n
}

// Builds the part that ends at hi and starts after lo: its list comes to the first slot.
fn build_part(inputs: &Inputs, work: &mut [u32], lo: u32, hi: u32) -> Result<(), Refusal>
    requires walkable { Walkable inputs.now.section.now inputs.now.families.now inputs.now.selection.now work.old hi }
    requires lo_value { lo ≡ part_start (shape_at inputs.now.selection.now) hi }
    ensures { (w : Walkable inputs.now.section.now inputs.now.families.now inputs.now.selection.now work.old hi)
        → PartList (searched_of inputs.now.section.now inputs.now.families.now) w.part.tree work.new result }
{
    let before = selection::parts::rank_at(inputs.selection, lo);
    build::build(inputs, work, lo, hi, before + 1)
}

// "At kinds 5 to 15 it builds that code's whole part by the rules above, left to right, and looks for a match without excludes." So of kind 5, and by F-3 of
// kinds 16 and 17.
fn answer_built(inputs: &Inputs, work: &mut [u32], hi: u32) -> Quick
    requires { Walkable inputs.now.section.now inputs.now.families.now inputs.now.selection.now work.old hi }
    ensures { (w : Walkable inputs.now.section.now inputs.now.families.now inputs.now.selection.now work.old hi) → result ≡ build_of (searched_of inputs.now.section.now inputs.now.families.now) w.part.tree }
{
    let lo = selection::parts::part_start(inputs.selection, hi);
    build_part(inputs, work, lo, hi)?;
    Ok(Answered {
        yes: store::is_yes(work, 0),
        codes: count_codes(inputs.selection, lo, hi),
    })
}

// Kinds 6 to 15, F-4: "it should take the operand's matches one by one and stop at the first that gives a match without excludes." The operand's part, which
// ends just before the filter, is built.
fn answer_filter(inputs: &Inputs, work: &mut [u32], filter: Filter, hi: u32) -> Quick
    requires walkable { Walkable inputs.now.section.now inputs.now.families.now inputs.now.selection.now work.old hi }
    requires hi_value { code_at inputs.now.selection.now hi ≡ Filtered filter }
    ensures { (w : Walkable inputs.now.section.now inputs.now.families.now inputs.now.selection.now work.old hi) → result ≡ walk_of (searched_of inputs.now.section.now inputs.now.families.now) w.part.tree }
{
    let operand = hi - 1;
    let lo = selection::parts::part_start(inputs.selection, operand);
    build_part(inputs, work, lo, operand)?;
    // counted first: the loop then has less to keep on the stack
    let codes = count_codes(inputs.selection, lo, hi);
    let yes = filter_yes::is_yes(inputs.section, filter, work, 0);
    Ok(Answered { yes, codes })
}

// The answer of a part that the walk does not go into: "a phrase is yes if its list isn't empty", found at the first find; a filter is asked of its operand's
// matches; any other part is built. A call of its own, so that a level of the walk's recursion takes little stack.
#[inline(never)]
fn answer_leaf(inputs: &Inputs, work: &mut [u32], hi: u32) -> Quick
    requires { Walkable inputs.now.section.now inputs.now.families.now inputs.now.selection.now work.old hi }
    ensures { (w : Walkable inputs.now.section.now inputs.now.families.now inputs.now.selection.now work.old hi) → goes_into (shape_at inputs.now.selection.now hi) ≡ false → result ≡ walk_of (searched_of inputs.now.section.now inputs.now.families.now) w.part.tree }
{
    match codes::code_at(inputs.selection, hi) {
        Code::Phrase(_) => {
            let words = selection::parts::phrase_words(inputs.selection, hi);
            let yes = phrase::is_found(inputs.section, inputs.families, words);
            Ok(Answered { yes, codes: 1 })
        }
        Code::Filter(filter) => answer_filter(inputs, work, filter, hi),
        _ => answer_built(inputs, work, hi),
    }
}

// Does the left side's yes or no decide a combination? An or's yes does, an and's no; a mild not is not walked.
fn decides(pair: Pair, yes: bool) -> bool
    ensures { (codes : ℕ) → result ≡ decides_of pair (answered yes codes) }
{
    match pair {
        Pair::Or => yes,
        Pair::And => !yes,
        Pair::MildNot => true,
    }
}

// The walk of the part that ends at hi: "`or` walks its left side, then its right only after a no; `and` its left side, then its right only after a yes". What
// is under a not, and the right side of an or or an and, is gone on with in the loop: its answer is the part's own, turned round by each not, with the codes
// walked so far. So only left sides are walked by recursion.
pub fn walk(inputs: &Inputs, work: &mut [u32], hi: u32) -> Quick
    requires { Walkable inputs.now.section.now inputs.now.families.now inputs.now.selection.now work.old hi }
    ensures { (w : Walkable inputs.now.section.now inputs.now.families.now inputs.now.selection.now work.old hi) → result ≡ walk_of (searched_of inputs.now.section.now inputs.now.families.now) w.part.tree }
{
    let mut place = hi;
    let mut turned = false;
    let mut codes: u32 = 0;
    loop {
        match codes::code_at(inputs.selection, place) {
            Code::Not => {
                turned = !turned;
                codes += 1;
                place -= 1;
            }
            Code::Combine(pair) if !codes::is_mild(pair) => {
                codes += 1;
                let mid = selection::parts::part_start(inputs.selection, place - 1);
                let left = walk(inputs, work, mid)?;
                codes += left.codes;
                if decides(pair, left.yes) {
                    let yes = left.yes != turned;
                    return Ok(Answered { yes, codes });
                }
                place -= 1;
            }
            _ => {
                let answer = answer_leaf(inputs, work, place)?;
                let yes = answer.yes != turned;
                codes += answer.codes;
                return Ok(Answered { yes, codes });
            }
        }
    }
}
