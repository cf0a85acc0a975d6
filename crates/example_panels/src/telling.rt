// What a word says of a panel.
use crate::example::{Begins, Example, Section};
use character_knowledge::Control as OfCharacter;
use example_text::{INVALID, Word};
use fact::Single;
use panel::Panel;
use segment::Pointer;
use segment_knowledge::Control as OfSegment;
use terms::Address;

// What is told after a word that ended. The part byte begins a line: a recording starts from knowing nothing, and all else with everything known. A
// packet says nothing.
pub fn told(panel: &mut Panel, example: &Example, word: Word) {
    match example.begins {
        Some(Begins::Packet) => {}
        Some(Begins::PartByte) => behind(panel, example, word),
        None => {
            if word.name == Some(b'0') {
                *panel = begun(example.section);
            }
        }
    }
}

fn begun(section: Section) -> Panel {
    match section {
        Section::Recordings => panel::nothing_known(),
        _ => all_known(),
    }
}

// A word behind the part byte speaks of PT6312 and PT6315 where that names no part.
fn behind(panel: &mut Panel, example: &Example, word: Word) {
    match word.name {
        None => {}
        Some(name) => {
            if example.section == Section::Recordings {
                start(panel, name);
            } else if example.part == 0x02 {
                character(&mut panel.character, name, word);
            } else {
                segment(&mut panel.segment, name, word);
            }
        }
    }
}

// The words of a recording: known, and then led or port, with a value that is out of range. Of a word's letters the first counts.
fn start(panel: &mut Panel, name: u8) {
    match name {
        b'k' => *panel = all_known(),
        b'l' => panel.segment.control.led = 0x0F10,
        b'p' => panel.character.control.port = 0x0304,
        _ => {}
    }
}

fn segment(knows: &mut segment_knowledge::Knowledge, name: u8, word: Word) {
    match name {
        b'n' => *knows = segment_knowledge::nothing_known(),
        b'e' => knows.cells = [word.lamps(0xFF); 36],
        b'c' => store(&mut knows.cells, word.at, word.lamps(0xFF)),
        b'k' => store(&mut knows.control.keys, word.at, word.code()),
        _ => segment_control(&mut knows.control, name, word),
    }
}

fn segment_control(knows: &mut OfSegment, name: u8, word: Word) {
    match name {
        b'i' => knows.address = segment_knowledge::Pointing::Known(Pointer::Invalid),
        b'p' => knows.position = single(word),
        b'd' => knows.data = single(word),
        b'f' => knows.stepping = single(word),
        b'a' => knows.address = segment_address(word),
        b'r' => knows.count = single(word),
        b'm' => knows.mode = single(word),
        b'b' => knows.dimming = single(word),
        b'o' => knows.display = single(word),
        b'l' => knows.led = word.lamps(0x0F),
        b's' => knows.switches = single(word),
        _ => {}
    }
}

fn character(knows: &mut character_knowledge::Knowledge, name: u8, word: Word) {
    match name {
        b'n' => *knows = character_knowledge::nothing_known(),
        b't' => store(&mut knows.dcram, word.at, word.lamps(0xFF)),
        b's' => store(&mut knows.cgram, word.at, word.lamps(0x7F)),
        b'm' => store(&mut knows.adram, word.at, word.lamps(0x03)),
        _ => character_control(&mut knows.control, name, word),
    }
}

fn character_control(knows: &mut OfCharacter, name: u8, word: Word) {
    match name {
        b'p' => knows.position = single(word),
        b'd' => knows.dcram_at = character_address(word),
        b'g' => knows.cgram_at = character_address(word),
        b'a' => knows.adram_at = character_address(word),
        b'c' => knows.column = single(word),
        b'o' => knows.port = word.lamps(0x03),
        b'b' => knows.duty = single(word),
        b'w' => knows.digits = single(word),
        b'l' => knows.lights = single(word),
        _ => {}
    }
}

// What stands past the row is nothing.
fn store(row: &mut [u16], at: usize, code: u16) {
    if let Some(cell) = row.get_mut(at) {
        *cell = code;
    }
}

// A number that is no byte is not known.
fn single(word: Word) -> Single<u8> {
    match u8::try_from(word.code()) {
        Ok(n) => Single::Known(n),
        Err(_) => Single::Unknown,
    }
}

fn segment_address(word: Word) -> segment_knowledge::Pointing {
    if word.code() == INVALID {
        return segment_knowledge::Pointing::Known(Pointer::Invalid);
    }
    match single(word) {
        Single::Known(n) => segment_knowledge::Pointing::Known(Pointer::At(Address(n))),
        Single::Unknown => segment_knowledge::Pointing::Unknown,
    }
}

fn character_address(word: Word) -> character_knowledge::Pointing {
    match single(word) {
        Single::Known(n) => character_knowledge::Pointing::Known(Address(n)),
        Single::Unknown => character_knowledge::Pointing::Unknown,
    }
}

// What all but recordings start from: a panel in the middle of writing, with a value that shows in every fact, whichever part drives it. Memory, LED and
// port have all their marks.
fn all_known() -> Panel {
    Panel {
        segment: segment_known(),
        character: character_known(),
    }
}

fn segment_known() -> segment_knowledge::Knowledge {
    segment_knowledge::Knowledge {
        cells: [0xFF6E; 36],
        control: OfSegment {
            address: segment_knowledge::Pointing::Known(Pointer::At(Address(5))),
            data: Single::Known(segment_knowledge::WRITE_DISPLAY),
            stepping: Single::Known(segment_knowledge::INCREMENT),
            mode: Single::Known(3),
            dimming: Single::Known(5),
            display: Single::Known(segment_knowledge::ON),
            led: 0x0F09,
            keys: [0xA1, 0xA2, 0xA3, 0xA4],
            switches: Single::Known(6),
            count: Single::Known(2),
            position: Single::Known(segment_knowledge::OPEN),
        },
    }
}

fn character_known() -> character_knowledge::Knowledge {
    character_knowledge::Knowledge {
        dcram: [0xFF6E; 16],
        cgram: [0x7F6E; 40],
        adram: [0x0302; 16],
        control: OfCharacter {
            dcram_at: character_knowledge::Pointing::Known(Address(5)),
            cgram_at: character_knowledge::Pointing::Known(Address(6)),
            adram_at: character_knowledge::Pointing::Known(Address(7)),
            column: Single::Known(3),
            port: 0x0302,
            duty: Single::Known(5),
            digits: Single::Known(4),
            lights: Single::Known(character_knowledge::ON),
            position: Single::Known(character_knowledge::DCRAM),
        },
    }
}
