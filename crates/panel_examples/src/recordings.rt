// Whole recordings, and their tails.
//
// A line is a part byte and a recording. The replay starts at place 0, knowing nothing, unless words between the bytes say otherwise.
//     @0007   the replay starts at place 0007H
//     known   everything is known, as `told` has it
//     led     the LED of PT6312 and PT6315 is known as 16, which is out of range
//     port    the port of PT6302 is known as 4, which is out of range
// known stands before the others.
//
// What is written is the replay's answer; what is known then, of single facts only the known ones; and the tail finder's answer, with the tail's start,
// end, length and first 16 bytes. Where the part byte names no part, or one of the last three words stands in the line, both halves of the knowledge
// are shown, so that one sees what a refusal leaves as it was.
use crate::in_words::answered;
use example_panels::{Example, write_known_panel};
use example_text::Hex;
use panel::Panel;
use std::io;
use tail::Found;
use terms::Place;

pub fn run(rt: &impl Print, example: &Example, before: Panel, recording: &[u8]) -> io::Result<()> {
    let part = example.part;
    let replayed = replay::replay(part, before, recording, Place(example.start.unwrap_or(0)));
    let answer = replayed.answer;
    answered(rt, "\n    replay ", answer)?;
    write_known_panel(rt, part, &replayed.panel, example.worded)?;
    tails(rt, part, recording)
}

fn tails(rt: &impl Print, part: u8, recording: &[u8]) -> io::Result<()> {
    found(rt, tail::find_tail(part, recording))?;
    first(rt, tail::tail(part, recording))
}

fn found(rt: &impl Print, found: Found) -> io::Result<()> {
    let answer = found.answer;
    answered(rt, "\n    tail ", answer)?;
    print!(rt; ", from {} to {}", found.start.0, found.end.0)
}

// How long a tail is, and its first bytes: a long one would hide the rest.
fn first(rt: &impl Print, tail: &[u8]) -> io::Result<()> {
    let length = tail.len();
    match tail.get(..16) {
        Some(first) if 16 < length => print!(rt; ", length {length}:{} ..", Hex(first)),
        _ => print!(rt; ", length {length}:{}", Hex(tail)),
    }
}
