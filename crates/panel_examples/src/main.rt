// Runs the examples of the file stdin, a line each, and writes each line back with what it comes to. It is compared with the file stdout, whose values
// are from paper 01, and of packets, the ring of cells, updates, temperatures, the places of 8 and single bits from paper 02 (M-100 to M-104, M-107).
//
// A line that is a name, events, recordings, packets, updates or temperatures, says what the lines behind it are; a line that begins with # is a remark. Every other line begins
// with a part byte, or is a packet and begins with /. Bytes are in hex, with a space between; words say what is known before, and their numbers are in hex.
//     ( 03 5A )*FFFE   what stands between ( and ) is repeated until there are FFFEH bytes
// The longest recordings and packets stand last among theirs, since the interpreter of `rt try` has not steps enough for them.
//
// What is written has memory, keys, addresses and unfinished bytes in hex, and other numbers in decimal. Memory stands as runs, 00-06=6E; ?? is unknown,
// 12/F6 a byte, LED or port of which only the bits of the marks F6 are known, in hex, and !! a key byte of the code 257. A refusal is its number and place. What each section reads and writes beside that stands at its module.
#![tactic(auto)]

mod events;
mod in_words;
mod packeted;
mod recordings;
mod updates;

use example_panels::{Bytes, Example, Section, told};
use example_text::{Word, run_examples};
use feed::{Feed, opened};
use panel::Panel;
use std::io;
use std::process::ExitCode;

// Room for the bytes of a line.
const ROOM: usize = 65600;

fn main(rt: HostRuntime) -> ExitCode {
    run_examples(
        &rt,
        "panel_examples",
        rt.stdin(),
        |examples| run(&rt, examples),
    )
}

// What is told and what is kept are values of their own, beside what was read, so that only what changes them is about them.
fn run(rt: &impl Print, examples: &[u8]) -> io::Result<()> {
    let mut word = Word::new();
    let mut example = Example::new(Section::Packets, 0);
    let mut bytes = Bytes::<ROOM>::new();
    let mut knows = panel::nothing_known();
    let mut feed = opened(knows);
    for c in examples {
        let c = *c;
        if word.ends(c) {
            told(&mut knows, &example, word);
            example.read(word, &mut bytes);
            word = Word::new();
        } else {
            word.read(c);
        }
        if c == b'\n' {
            feed = ended(rt, feed, &example, knows, bytes.as_slice())?;
            example = Example::new(example.section, example.part);
            bytes.clear();
        }
        rt.write_all(&[c])?;
    }
    Ok(())
}

// A line that has begun is run where it ends. Where no packets are taken, what was told is what a packet behind the line would start from.
fn ended(
    rt: &impl Print,
    feed: Feed,
    example: &Example,
    panel: Panel,
    bytes: &[u8],
) -> io::Result<Feed> {
    if example.begins.is_none() {
        return Ok(feed);
    }
    match example.section {
        Section::Events => events::run(rt, example.part, panel, bytes)?,
        Section::Recordings => recordings::run(rt, example, panel, bytes)?,
        Section::Updates => updates::run(rt, example, panel, bytes)?,
        Section::Temperatures => example_temperatures::run(rt, example, panel, bytes)?,
        Section::Packets => return packeted::run(rt, example, feed, panel, bytes),
    }
    Ok(opened(panel))
}
