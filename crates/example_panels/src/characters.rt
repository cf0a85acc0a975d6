// What is known of a PT6302 panel, in words. It begins with a line end and has none behind it.
use crate::facts::{Fact, Shown, write_known, write_line};
use crate::rows::Runs;
use character_knowledge::{Control, Knowledge, Pointing};
use std::io;

// The names stand in the order of the numbers that `character_knowledge` gives them.
const POSITIONS: [&str; 6] = [
    "idle",
    "first byte",
    "to DCRAM",
    "to CGRAM",
    "to ADRAM",
    "ignoring",
];

const LIGHTS: [&str; 3] = ["normal", "off", "on"];

// Writes everything, and what is unknown, on three lines.
pub fn write_character(rt: &impl Print, k: &Knowledge) -> io::Result<()> {
    write_line(rt, &writing(&k.control))?;
    write_line(rt, &settings(&k.control))?;
    memory(rt, k, ';')
}

// Writes all but unknown single facts, on one line.
pub fn write_known_character(rt: &impl Print, k: &Knowledge) -> io::Result<()> {
    memory(rt, k, ',')?;
    write_known(rt, &writing(&k.control))?;
    write_known(rt, &settings(&k.control))
}

// What the next byte goes by.
fn writing(c: &Control) -> [Fact; 5] {
    [
        ("position", Shown::named(c.position, &POSITIONS)),
        ("DCRAM at", address(c.dcram_at)),
        ("CGRAM at", address(c.cgram_at)),
        ("column", Shown::number(c.column)),
        ("ADRAM at", address(c.adram_at)),
    ]
}

fn settings(c: &Control) -> [Fact; 4] {
    [
        ("port", Shown::bits(c.port, 0x03)),
        ("duty", Shown::number(c.duty)),
        ("digits", Shown::number(c.digits)),
        ("lights", Shown::named(c.lights, &LIGHTS)),
    ]
}

fn address(to: Pointing) -> Shown {
    match to {
        Pointing::Known(cell) => Shown::Cell(cell),
        Pointing::Unknown => Shown::Unknown,
    }
}

// The RAMs stand on one line, with a mark between them.
fn memory(rt: &impl Print, k: &Knowledge, mark: char) -> io::Result<()> {
    print!(rt;
        "\n    DCRAM{}{mark}",
        Runs {
            codes: &k.dcram,
            full: 0xFF
        }
    )?;
    print!(rt;
        " CGRAM{}{mark}",
        Runs {
            codes: &k.cgram,
            full: 0x7F
        }
    )?;
    print!(rt;
        " ADRAM{}",
        Runs {
            codes: &k.adram,
            full: 0x03
        }
    )
}
