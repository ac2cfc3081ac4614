// The list of a part of a selection, built code by code in the slots of working memory.

#![tactic(auto)]

mod steps; // one code's list, from the lists that wait

ghost use Rattle.model.specs.Families.{searched_of};
ghost use Rattle.build.specs.State.{Buildable};
ghost use Rattle.build.specs.PartList.{PartList};

use model::{Inputs, Reason, Refusal};

// "it builds that code's whole part by the rules above, left to right": the codes at the places lo + 1 to hi, the first phrase among them with the given
// rank. Its list then lies in the first slot; or it is refused at the first code whose list has over 256 matches or 512 strings.
pub fn build(inputs: &Inputs, mem: &mut [u32], lo: u32, hi: u32, rank: u32) -> Result<(), Refusal>
    requires { Buildable inputs.now.section.now inputs.now.families.now inputs.now.selection.now mem.old lo hi rank }
    ensures { (w : Buildable inputs.now.section.now inputs.now.families.now inputs.now.selection.now mem.old lo hi rank)
        → PartList (searched_of inputs.now.section.now inputs.now.families.now) w.part.tree mem.new result }
{
    let mut lists: usize = 0;
    let mut next = rank;
    for before in lo..hi {
        let place = before + 1;
        let code = codes::code_at(inputs.selection, place);
        let built = steps::build_code(inputs, code, place, next, mem, lists);
        let Ok(_) = built else {
            return Err(Refusal {
                reason: Reason::LongList,
                place,
            });
        };
        lists = selection::waiting::lists_after(code, lists);
        next += codes::phrases_ended(code);
    }
    Ok(())
}
