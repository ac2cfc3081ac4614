// Runs the examples that it reads, each three lines: a name, the numbers of a section, the numbers of a selection. Its `stdin` has
// document 01's examples of 'Six tokens', in the paper's words and order.

#![tactic(auto)]

mod reading; // lines and numbers
mod showing; // what is printed of an example

ghost use Rattle.std.specs.Prelude.{◌<◌, ◌≤◌, IfOk, length};

use reading::{line_end, read_numbers};
use std::io;

// The example whose first line begins at `name`. Answers where it ends.
fn run(
    rt: &impl Print,
    text: &[u8],
    name: usize,
    section: &mut [u32],
    selection: &mut [u32],
) -> io::Result<usize>
    requires { name < length text.now }
    ensures { IfOk result (λ end. (name < end) × (end ≤ length text.now)) }
{
    let second = line_end(text, name);
    let third = line_end(text, second);
    let end = line_end(text, third);
    let n = read_numbers(&text[second..third], section);
    let m = read_numbers(&text[third..end], selection);
    rt.write_all(&text[name..second])?;
    showing::show(rt, &section[..n], &selection[..m])?;
    Ok(end)
}

fn run_all(
    rt: &impl Print,
    text: &[u8],
    section: &mut [u32],
    selection: &mut [u32],
) -> io::Result<()> {
    let mut at = 0;
    while at < text.len() {
        at = run(rt, text, at, section, selection)?;
    }
    Ok(())
}

fn main(rt: HostRuntime) -> io::Result<()> {
    let mut text = [0u8; 4096];
    let length = input::read_full(&mut rt.stdin(), &mut text)?;
    // a section of 4,097 tokens and a selection of 65 codes: the least that are too long
    let mut section = [0u32; 8195];
    let mut selection = [0u32; 131];
    run_all(&rt, &text[..length], &mut section, &mut selection)
}
