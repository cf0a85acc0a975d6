// What is known of a PT6312 or PT6315 panel, in words. What the part lacks is not shown. It begins with a line end and has none behind it.
use crate::facts::{Fact, Shown, write_known, write_line};
use crate::rows::{Keys, Runs};
use segment::Pointer;
use segment_knowledge::{Control, Knowledge, Pointing};
use std::io;

// The names stand in the order of the numbers that `segment_knowledge` gives them.
const POSITIONS: [&str; 4] = ["idle", "first byte", "open", "ignoring"];

const DATA_MODES: [&str; 4] = ["write display", "write LED", "read keys", "read switches"];

const STEPPINGS: [&str; 2] = ["increment", "fixed"];

const DISPLAYS: [&str; 2] = ["off", "on"];

// Writes everything, and what is unknown, on three lines.
pub fn write_segment(rt: &impl Print, part: u8, k: &Knowledge) -> io::Result<()> {
    write_line(rt, &writing(&k.control))?;
    write_line(rt, &settings(&k.control))?;
    keys(rt, part, &k.control)?;
    if part == 0x12 {
        print!(rt; ", switches {}", Shown::number(k.control.switches))?;
    }
    cells(rt, part, k)
}

// Writes all but unknown single facts, on one line.
pub fn write_known_segment(rt: &impl Print, part: u8, k: &Knowledge) -> io::Result<()> {
    cells(rt, part, k)?;
    keys(rt, part, &k.control)?;
    write_known(rt, &writing(&k.control))?;
    write_known(rt, &settings(&k.control))?;
    if part == 0x12 {
        write_known(rt, &[("switches", Shown::number(k.control.switches))])?;
    }
    Ok(())
}

// What the next byte goes by.
fn writing(c: &Control) -> [Fact; 5] {
    [
        ("position", Shown::named(c.position, &POSITIONS)),
        ("data mode", Shown::named(c.data, &DATA_MODES)),
        ("stepping", Shown::named(c.stepping, &STEPPINGS)),
        ("address", address(c.address)),
        ("read count", Shown::number(c.count)),
    ]
}

fn settings(c: &Control) -> [Fact; 4] {
    [
        ("mode", Shown::number(c.mode)),
        ("dimming", Shown::number(c.dimming)),
        ("display", Shown::named(c.display, &DISPLAYS)),
        ("LED", Shown::bits(c.led, 0x0F)),
    ]
}

fn address(to: Pointing) -> Shown {
    match to {
        Pointing::Known(Pointer::At(cell)) => Shown::Cell(cell),
        Pointing::Known(Pointer::Invalid) => Shown::Invalid,
        Pointing::Unknown => Shown::Unknown,
    }
}

fn keys(rt: &impl Print, part: u8, c: &Control) -> io::Result<()> {
    let keys = if part == 0x12 { &c.keys[..3] } else { &c.keys };
    print!(rt; ", keys{}", Keys(keys))
}

fn cells(rt: &impl Print, part: u8, k: &Knowledge) -> io::Result<()> {
    let codes = if part == 0x12 {
        &k.cells[..22]
    } else {
        &k.cells
    };
    print!(rt; "\n    cells{}", Runs { codes, full: 0xFF })
}
