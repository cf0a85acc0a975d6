// Events, one by one, through what is known of a panel, and the report of the byte to be sent next.
//
// A line is a part byte and events as paper 01 records them. It starts with everything known, both halves for a byte that names no part. Words between the
// part byte and the events change that. A word begins with a small letter, ends at a space, and of its small letters only the first counts.
//     position?    the position is unknown
//     position=01  the position is known as number 1, in range or not
//     cell07?      memory and keys have a number: cell 07H is unknown
//     cell07=09    cell 07H is known to be 09H, every bit of it
//     cell07=12/F6 of cell 07H, of LED and port likewise, the bits of F6H are known to be those of 12H, and no other, in range or not
//     cell07!      cell 07H has a 1 stored that is not known; key02! has the code 257, which is neither a byte nor unknown
//     nothing      nothing is known
// PT6312 and PT6315 have cell, key, every (all cells), address, invalid (the address), data (mode), fixed (or increment), mode, bright
// (dimming), on, led, switches, reads (the read count) and position. PT6302 has text (DCRAM), shape (CGRAM, columns 00H to 27H) and mark
// (ADRAM), dcram, glyph and adram (their addresses), column, out (the port), bright (duty), width (digits), lights and position.
//
// What is written is the answer to the last event, where it is refused, what is known then, and the report.
use crate::in_words;
use example_panels::write_panel;
use example_text::Line;
use hearing::{Answer, Heard, Refused};
use panel::Panel;
use reporting::{NoReport, Report};
use segment::Sent;
use segment_sent::Sending;
use std::io;
use terms::Place;

pub fn run(rt: &impl Print, part: u8, panel: Panel, records: &[u8]) -> io::Result<()> {
    let heard = heard(part, panel, records);
    let answer = heard.answer;
    show(rt, answer)?;
    let after = heard.panel;
    write_panel(rt, part, &after)?;
    tell(rt, reporting::next_sent(part, after))
}

fn heard(part: u8, panel: Panel, records: &[u8]) -> Heard {
    let mut heard = Heard {
        answer: Ok(()),
        panel,
    };
    let mut line = Line::behind(part);
    for byte in records {
        if let Some(event) = line.read(*byte) {
            heard = hearing::hear(part, heard.panel, event);
        }
    }
    heard
}

fn show(rt: &impl Print, answer: Answer) -> io::Result<()> {
    match answer {
        Ok(()) => Ok(()),
        Err(Refused::NoPart(place)) => refused(rt, 1, place),
        Err(Refused::OutOfRange(place)) => refused(rt, 2, place),
        Err(Refused::Foreign(place)) => refused(rt, 6, place),
        Err(Refused::Forbidden(place)) => refused(rt, 8, place),
    }
}

fn refused(rt: &impl Print, n: usize, place: Place) -> io::Result<()> {
    in_words::refused(rt, "\n    ", n, place)
}

fn tell(rt: &impl Print, report: Report) -> io::Result<()> {
    print!(rt; "\n    next byte ")?;
    match report {
        Ok(sending) => sends(rt, sending),
        Err(NoReport::NoPart(place)) => unknown(rt, 1, place),
        Err(NoReport::OutOfRange(place)) => unknown(rt, 2, place),
    }
}

fn unknown(rt: &impl Print, n: usize, place: Place) -> io::Result<()> {
    in_words::refused(rt, "unknown, ", n, place)
}

fn sends(rt: &impl Print, sending: Sending) -> io::Result<()> {
    match sending {
        Sending::Known(Sent::Byte(byte)) => print!(rt; "sends {byte:02X}"),
        Sending::Known(Sent::NotDriven) => print!(rt; "not driven"),
        Sending::Unknown => print!(rt; "unknown"),
    }
}
