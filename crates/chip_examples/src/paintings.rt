// Pictures, painted. Of each the answer is written, and the whole output, which held EE before.
use character::Lights;
use example_text::Hex;
use painting::{CharacterPicture, NotPainted, Painted, Picture, SegmentPicture};
use segment::Display;
use std::io;

pub fn run(rt: &impl Print) -> io::Result<()> {
    segment(rt, "P14, PT6312 all 00", 0x12, blank(), 68)?;
    pt6315(rt)?;
    pt6302(rt)?;
    rooms(rt)?;
    segments(rt)?;
    characters(rt)
}

// Mode and dimming at their highest, two lamps, and the first and the last cell marked.
fn pt6315(rt: &impl Print) -> io::Result<()> {
    let mut cells = [0x10u8; 36];
    cells[0] = 0xA5;
    cells[35] = 0x5A;
    let picture = SegmentPicture {
        cells,
        mode: 8,
        dimming: 7,
        display: Display::On,
        led: 10,
    };
    segment(rt, "PT6315", 0x15, picture, 95)
}

// The first and the last cell of each RAM marked.
fn pt6302(rt: &impl Print) -> io::Result<()> {
    let mut dcram = [0x20u8; 16];
    dcram[0] = 0x2D;
    dcram[15] = 0x35;
    let mut cgram = [0u8; 40];
    cgram[0] = 0x7F;
    cgram[39] = 0x41;
    let mut adram = [0u8; 16];
    adram[0] = 3;
    adram[15] = 1;
    let picture = CharacterPicture {
        dcram,
        cgram,
        adram,
        port: 2,
        duty: 7,
        digits: 1,
        lights: Lights::On,
    };
    character(rt, "PT6302", picture, 174)
}

fn rooms(rt: &impl Print) -> io::Result<()> {
    segment(rt, "part 14", 0x14, blank(), 3)?;
    segment(rt, "room 65 on PT6312", 0x12, blank(), 65)?;
    character(rt, "room 171 on PT6302", spaces(), 171)
}

fn segments(rt: &impl Print) -> io::Result<()> {
    let with_mode = |mode| SegmentPicture { mode, ..blank() };
    let lit = SegmentPicture { led: 16, ..blank() };
    let dimmed = SegmentPicture {
        dimming: 8,
        ..blank()
    };
    segment(rt, "mode 8 on PT6312", 0x12, with_mode(8), 3)?;
    segment(rt, "LED 16", 0x15, lit, 3)?;
    segment(rt, "dimming 8", 0x15, dimmed, 3)?;
    segment(rt, "mode 9 on PT6315", 0x15, with_mode(9), 3)?;
    segment(rt, "room 93 on PT6315", 0x15, with_mode(8), 93)?;
    segment(rt, "mode 9 on no part", 0x13, with_mode(9), 3)
}

// Only the last mark or column of a row is beyond what it may be.
fn characters(rt: &impl Print) -> io::Result<()> {
    let port = CharacterPicture {
        port: 4,
        ..spaces()
    };
    let duty = CharacterPicture {
        duty: 8,
        ..spaces()
    };
    let digits = CharacterPicture {
        digits: 8,
        ..spaces()
    };
    let mut pair = spaces();
    pair.adram[15] = 4;
    let mut column = spaces();
    column.cgram[39] = 0x80;
    character(rt, "port 4", port, 3)?;
    character(rt, "duty 8", duty, 3)?;
    character(rt, "digits 8", digits, 3)?;
    character(rt, "a pair of 4", pair, 3)?;
    character(rt, "a column of 80", column, 3)
}

// All 00, mode 7, LED 15, dimming 0, off.
fn blank() -> SegmentPicture {
    SegmentPicture {
        cells: [0; 36],
        mode: 7,
        dimming: 0,
        display: Display::Off,
        led: 15,
    }
}

// All spaces, an empty character set, no marks, lights normal.
fn spaces() -> CharacterPicture {
    CharacterPicture {
        dcram: [0x20; 16],
        cgram: [0; 40],
        adram: [0; 16],
        port: 0,
        duty: 0,
        digits: 0,
        lights: Lights::Normal,
    }
}

fn segment(
    rt: &impl Print,
    name: &str,
    part: u8,
    segment: SegmentPicture,
    room: u8,
) -> io::Result<()> {
    let character = spaces();
    show(rt, name, part, Picture { segment, character }, room)
}

fn character(rt: &impl Print, name: &str, character: CharacterPicture, room: u8) -> io::Result<()> {
    let segment = blank();
    show(rt, name, 0x02, Picture { segment, character }, room)
}

fn show(rt: &impl Print, name: &str, part: u8, picture: Picture, room: u8) -> io::Result<()> {
    println!(rt; "{name}")?;
    let mut buffer = [0xEEu8; 256];
    painted(rt, part, picture, &mut buffer[..room as usize])
}

fn painted(rt: &impl Print, part: u8, picture: Picture, out: &mut [u8]) -> io::Result<()> {
    answered(rt, painter::paint(part, picture, out))?;
    println!(rt; "{}", Hex(out))
}

// Paper 01's number and place.
fn answered(rt: &impl Print, painted: Painted) -> io::Result<()> {
    match painted {
        Ok(place) => at(rt, 0, place.0),
        Err(NotPainted::NoPart(place)) => at(rt, 1, place.0),
        Err(NotPainted::OutOfRange(place)) => at(rt, 9, place.0),
        Err(NotPainted::TooSmall(place)) => at(rt, 10, place.0),
    }
}

fn at(rt: &impl Print, answer: usize, place: usize) -> io::Result<()> {
    print!(rt; "  {answer} at {place}:")
}
