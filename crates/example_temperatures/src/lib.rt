// Temperatures: what a field of a panel is known to show.
//
// A line is a part byte and the bytes that the cells from the field's start on are known to hold. Everything is known unless words between the bytes say
// otherwise, those of the events' lines, and
//     @0B   the field starts at 0BH; without it, at 00H
//
// What is written is the answer, of a reading the float's four bytes, the half degrees as a whole number, and the degrees.
#![tactic(auto)]

ghost use Rattle.half_degrees.specs.Half.{Halved};
ghost use Rattle.temperature_line.specs.Line.{Printable};

use character_knowledge::Knowledge;
use example_panels::Example;
use example_text::Hex;
use half_degrees::halves_of;
use panel::{Panel, with_character};
use std::io;
use temperature_line::write_line;
use terms::{Address, Place};
use thermometer::{Answer, temperature};

pub fn run(rt: &impl Print, example: &Example, panel: Panel, bytes: &[u8]) -> io::Result<()> {
    let start = (example.start.unwrap_or(0) % 256) as u8;
    let known = with_field(panel.character, start, bytes);
    let answer = temperature(example.part, with_character(panel, known), Address(start));
    tell(rt, answer)
}

// Bytes reach no further than the row.
fn with_field(mut k: Knowledge, start: u8, bytes: &[u8]) -> Knowledge {
    let cells = k.dcram.iter_mut().skip(start as usize);
    for (cell, byte) in cells.zip(bytes) {
        *cell = u16::from_be_bytes([0xFF, *byte]);
    }
    k
}

fn tell(rt: &impl Print, answer: Answer) -> io::Result<()>
    requires { Printable answer }
{
    match answer {
        Answer::Reading(degrees) => reads(rt, degrees),
        Answer::NoReading => print!(rt; "\n    no reading"),
        Answer::Dark => print!(rt; "\n    dark"),
        Answer::Unknown => print!(rt; "\n    unknown"),
        Answer::NotAReading => print!(rt; "\n    not a reading"),
        Answer::NoPart(at) => refused(rt, 1, at),
        Answer::OutOfRange(at) => refused(rt, 2, at),
        Answer::NoField(at) => refused(rt, 11, at),
    }
}

fn refused(rt: &impl Print, n: usize, at: Place) -> io::Result<()> {
    print!(rt; "\n    unknown, refused {n} at {}", at.0)
}

// The highest byte of the float first.
fn reads(rt: &impl Print, degrees: f32) -> io::Result<()>
    requires { Halved degrees }
{
    print!(rt; "\n    reads{}", Hex(&f32::to_bits(degrees).to_be_bytes()))?;
    let halves = halves_of(degrees);
    let sign = if halves.negative { "-" } else { "" };
    print!(rt; ", half degrees {sign}{}", halves.size)?;
    in_words(rt, Answer::Reading(degrees))
}

// The line of the answer, without its end.
fn in_words(rt: &impl Print, answer: Answer) -> io::Result<()>
    requires { Printable answer }
{
    let mut out = [0u8; temperature_line::ROOM];
    let length = write_line(answer, &mut out);
    print!(rt; ", degrees ")?;
    match out[..length].split_last() {
        Some((_, degrees)) => rt.write_all(degrees),
        None => Ok(()),
    }
}
