// Runs the examples of the file stdin: a line is a part byte and a recording, in hex. Each line is written back with the chip that it
// ends in. Behind them pictures are painted. It is compared with the file stdout, whose values are from paper 01, and of the ring of cells from paper 02 (M-101).
#![tactic(auto)]

mod characters;
mod paintings;
mod print;
mod segments;

use example_text::{Line, Word, run_examples};
use segment::Family;
use std::io;
use std::process::ExitCode;

fn main(rt: HostRuntime) -> ExitCode {
    run_examples(
        &rt,
        "chip_examples",
        rt.stdin(),
        |examples| all(&rt, examples),
    )
}

fn all(rt: &impl Print, examples: &[u8]) -> io::Result<()> {
    run(rt, examples)?;
    paintings::run(rt)
}

// The chips are values of their own, beside what was read, so that only what moves them is about them.
fn run(rt: &impl Print, examples: &[u8]) -> io::Result<()> {
    let mut word = Word::new();
    let mut line = Line::new();
    let mut segment = segments::used();
    let mut other = characters::used();
    for c in examples {
        let c = *c;
        rt.write_all(&[c])?;
        if word.ends(c) {
            if word.name == Some(b'0') {
                let event = line.read(word.byte());
                segment = segments::after(line.part, event, segment);
                other = characters::after(line.part, event, other);
            }
            word = Word::new();
        } else {
            word.read(c);
        }
        if c == b'\n' {
            show(rt, line.part, segment, other)?;
            line = Line::new();
            segment = segments::used();
            other = characters::used();
        }
    }
    Ok(())
}

fn show(
    rt: &impl Print,
    part: Option<u8>,
    segment: segment::Moved,
    other: character::Moved,
) -> io::Result<()> {
    match part {
        Some(0x02) => characters::show(rt, other),
        Some(0x12) => segments::show(rt, Family::Pt6312, segment),
        Some(0x15) => segments::show(rt, Family::Pt6315, segment),
        _ => print!(rt; "    number 1\n"),
    }
}
