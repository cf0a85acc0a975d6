// PT6302.
use crate::print;
use character::{Anything, Character, Lights, Moved, Position};
use std::io;
use terms::{Address, Event};

// A chip in the middle of something, with a value that shows in every fact: all RAMs hold 6E, but ADRAM 2.
pub fn used() -> Moved {
    let chip = Character {
        dcram: [0x6E; 16],
        cgram: [0x6E; 40],
        adram: [2; 16],
        dcram_at: Address(5),
        cgram_at: Address(6),
        adram_at: Address(7),
        column: 3,
        port: 2,
        duty: 5,
        digits: 4,
        lights: Lights::On,
        position: Position::Cgram,
    };
    Moved {
        chip,
        any: Anything {
            memory: false,
            settings: false,
            position: false,
        },
    }
}

// After an event, if one ended, of this part.
pub fn after(part: Option<u8>, event: Option<Event>, moved: Moved) -> Moved {
    match (part, event) {
        (Some(0x02), Some(event)) => character_machine::moved(moved.chip, event),
        _ => moved,
    }
}

pub fn show(rt: &impl Print, moved: Moved) -> io::Result<()> {
    let chip = moved.chip;
    print!(rt;
        "    DCRAM at {}, CGRAM at {} column {}, ADRAM at {}, port {}, duty {}, digits {}, {}, {}",
        chip.dcram_at.0,
        chip.cgram_at.0,
        chip.column,
        chip.adram_at.0,
        chip.port,
        chip.duty,
        chip.digits,
        lights(chip.lights),
        position(chip.position)
    )?;
    print::changed(rt, "\n    D", &chip.dcram, 0x6E)?;
    print::changed(rt, "; G", &chip.cgram, 0x6E)?;
    print::changed(rt, "; A", &chip.adram, 2)?;
    let any = moved.any;
    print::flags(
        rt,
        &[
            ("memory", any.memory),
            ("settings", any.settings),
            ("position", any.position),
        ],
    )?;
    println!(rt)
}

fn lights(lights: Lights) -> &'static str {
    match lights {
        Lights::Normal => "normal",
        Lights::Off => "off",
        Lights::On => "on",
    }
}

fn position(position: Position) -> &'static str {
    match position {
        Position::Idle => "idle",
        Position::First => "first byte",
        Position::Dcram => "to DCRAM",
        Position::Cgram => "to CGRAM",
        Position::Adram => "to ADRAM",
        Position::Ignoring => "ignoring",
    }
}
