// ftlist: the full listing of a section and a selection that it reads from standard input.

#![tactic(auto)]

mod run; // from the bytes that it reads to the bytes that it prints

use model::{BUFFER_LENGTH, WORK_LENGTH};
use std::io;
use text::{MAX_INPUT, MAX_NUMBERS, TEXT_LENGTH};

fn main(rt: HostRuntime) -> io::Result<()> {
    // one byte more than it takes: what is longer shows
    let mut input = [0u8; MAX_INPUT + 1];
    let length = input::read_full(&mut rt.stdin(), &mut input)?;
    let mut numbers = [0u32; MAX_NUMBERS];
    let mut work = [0u32; WORK_LENGTH];
    let mut buffer = [0u32; BUFFER_LENGTH];
    let mut text = [0u8; TEXT_LENGTH];
    let printed = run::run(
        &input[..length],
        &mut numbers,
        &mut work,
        &mut buffer,
        &mut text,
    );
    rt.write_all(&text[..printed])
}
