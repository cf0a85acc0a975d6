// Updates: the stream that brings a panel to the wanted cells.
//
// A line is a part byte and the wanted cells, from 00H on; those that are not given are wanted as 6E, which every cell is known to hold unless a word says otherwise. Everything is
// known unless words between the bytes say otherwise: those of `events`, and
//     @0046   the output has 0046H bytes; without it, and at most, it has 112
//
// What is written is the update's answer, with how many bytes go over the wire; the bytes; how many bytes behind them are as before, which were A5; and of
// a stream that was sent, what its replay answers, and what `refresh` says is known then, as `recordings` has it.
ghost use Rattle.std.specs.Prelude.{◌≤◌};

use crate::in_words::{answered, refused};
use example_panels::{Example, write_known_panel};
use example_text::Hex;
use panel::Panel;
use std::io;
use terms::Place;
use updater::{NotUpdated, refresh};

pub fn run(rt: &impl Print, example: &Example, panel: Panel, given: &[u8]) -> io::Result<()> {
    let mut wanted = [0x6E; 36];
    for (cell, byte) in wanted.iter_mut().zip(given) {
        *cell = *byte;
    }
    let mut out = [0xA5; 112];
    let room = room_of(example);
    updates(rt, example.part, panel, wanted, &mut out[..room])
}

fn room_of(example: &Example) -> usize
    ensures { result ≤ 112 }
{
    example.start.unwrap_or(112).min(112)
}

fn updates(
    rt: &impl Print,
    part: u8,
    panel: Panel,
    wanted: [u8; 36],
    out: &mut [u8],
) -> io::Result<()> {
    let refreshed = refresh(part, panel, wanted, out);
    match refreshed.answer {
        Ok(size) => {
            sent(rt, part, panel, size.length.0, size.wire, out)?;
            write_known_panel(rt, part, &refreshed.panel, false)
        }
        Err(NotUpdated::NoPart(place)) => refuses(rt, 1, place, out),
        Err(NotUpdated::OutOfRange(place)) => refuses(rt, 2, place, out),
        Err(NotUpdated::TooSmall(place)) => refuses(rt, 10, place, out),
    }
}

fn sent(
    rt: &impl Print,
    part: u8,
    panel: Panel,
    length: usize,
    count: usize,
    out: &[u8],
) -> io::Result<()> {
    print!(rt; "\n    update done at {length}")?;
    wire(rt, count, length, out)?;
    let replayed = replay::replay(part, panel, front(out, length), Place(0));
    let answer = replayed.answer;
    answered(rt, "\n    replay ", answer)
}

fn refuses(rt: &impl Print, n: usize, place: Place, out: &[u8]) -> io::Result<()> {
    refused(rt, "\n    update ", n, place)?;
    wire(rt, 0, 0, out)
}

// The wire bytes, the stream, and how many bytes behind it are as they were.
fn wire(rt: &impl Print, count: usize, length: usize, out: &[u8]) -> io::Result<()> {
    let (stream, behind) = out.split_at(length.min(out.len()));
    let unchanged = behind.iter().take_while(|byte| **byte == 0xA5).count();
    print!(rt;
        ", wire {count}:{}, behind {unchanged} as before",
        Hex(stream)
    )
}

fn front(out: &[u8], length: usize) -> &[u8] {
    out.get(..length).unwrap_or(out)
}
