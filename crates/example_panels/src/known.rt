// What is known of a panel, in words.
use crate::characters::{write_character, write_known_character};
use crate::segments::{write_known_segment, write_segment};
use panel::Panel;
use std::io;

// Writes the half that the part byte asks for, or both where it names no part: everything, and what is unknown, on three lines each. Each half begins with a
// line end and has none behind it.
pub fn write_panel(rt: &impl Print, part: u8, panel: &Panel) -> io::Result<()> {
    if part != 0x02 {
        write_segment(rt, part, &panel.segment)?;
    }
    match part {
        0x12 | 0x15 => Ok(()),
        _ => write_character(rt, &panel.character),
    }
}

// The same, on a line each, of all but unknown single facts. Both halves are also written where both are asked for.
pub fn write_known_panel(rt: &impl Print, part: u8, panel: &Panel, both: bool) -> io::Result<()> {
    if both || part != 0x02 {
        write_known_segment(rt, part, &panel.segment)?;
    }
    match part {
        0x12 | 0x15 if !both => Ok(()),
        _ => write_known_character(rt, &panel.character),
    }
}
