// What is printed of an example after its name: its listing as `ftlist` prints it, and its quick answer.
use super::reading::line_end;
use model::{BUFFER_LENGTH, Listing, Refusal, WORK_LENGTH};
use std::io;
use text::TEXT_LENGTH;

// The text of a listing, or only its first line if it has over 20 matches.
fn show_text(rt: &impl Print, answer: Listing, text: &[u8]) -> io::Result<()> {
    match answer {
        Listing::Listed { matches, .. } if 20 < matches => rt.write_all(&text[..line_end(text, 0)]),
        _ => rt.write_all(text),
    }
}

fn show_listing(rt: &impl Print, section: &[u32], selection: &[u32]) -> io::Result<()> {
    let mut work = [0u32; WORK_LENGTH];
    let mut buffer = [0u32; BUFFER_LENGTH];
    let mut text = [0u8; TEXT_LENGTH];
    let answer = calls::listing(section, &[0], selection, &mut work, &mut buffer);
    let end = text::put_listing_text(answer, &buffer, &mut text);
    show_text(rt, answer, &text[..end])
}

fn show_answer(rt: &impl Print, yes: bool, codes: u32) -> io::Result<()> {
    if yes {
        print!(rt; "yes, ")?;
    } else {
        print!(rt; "no, ")?;
    }
    print!(rt; "{codes}")?;
    if codes == 1 {
        println!(rt; " code")
    } else {
        println!(rt; " codes")
    }
}

fn show_refusal(rt: &impl Print, refusal: Refusal) -> io::Result<()> {
    let number = u32::from(refusal.reason);
    let place = refusal.place;
    println!(rt; "refused {number} {place}")
}

fn show_quick(rt: &impl Print, section: &[u32], selection: &[u32]) -> io::Result<()> {
    let mut work = [0u32; WORK_LENGTH];
    let quick = calls::quick(section, &[0], selection, &mut work);
    print!(rt; "quick: ")?;
    match quick {
        Ok(answer) => show_answer(rt, answer.yes, answer.codes),
        Err(refusal) => show_refusal(rt, refusal),
    }
}

pub fn show(rt: &impl Print, section: &[u32], selection: &[u32]) -> io::Result<()> {
    show_listing(rt, section, selection)?;
    show_quick(rt, section, selection)?;
    println!(rt)
}
