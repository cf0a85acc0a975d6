// PT6312 and PT6315.
use crate::print;
use segment::{Anything, Data, Display, Family, Moved, Pointer, Position, Segment, Sent, Stepping};
use std::io;
use terms::{Address, Event};

// A chip in the middle of something, with a value that shows in every fact: all cells hold EE.
pub fn used() -> Moved {
    let chip = Segment {
        cells: [0xEE; 36],
        address: Pointer::At(Address(5)),
        data: Data::ReadKeys,
        stepping: Stepping::Fixed,
        mode: 3,
        dimming: 5,
        display: Display::On,
        led: 9,
        keys: [0xA1, 0xA2, 0xA3, 0xA4],
        switches: 6,
        count: 2,
        position: Position::Open,
    };
    Moved {
        chip,
        any: Anything {
            memory: false,
            data: false,
            settings: false,
            inputs: false,
            position: false,
        },
    }
}

// After an event, if one ended, of one of these parts.
pub fn after(part: Option<u8>, event: Option<Event>, moved: Moved) -> Moved {
    match (part, event) {
        (Some(0x12), Some(event)) => segment_machine::moved(Family::Pt6312, moved.chip, event),
        (Some(0x15), Some(event)) => segment_machine::moved(Family::Pt6315, moved.chip, event),
        _ => moved,
    }
}

pub fn show(rt: &impl Print, family: Family, moved: Moved) -> io::Result<()> {
    let chip = moved.chip;
    address(rt, chip.address)?;
    print!(rt;
        ", {}, {}, mode {}, dimming {}, {}, LED {}, count {}, {}",
        data(chip.data),
        stepping(chip.stepping),
        chip.mode,
        chip.dimming,
        display(chip.display),
        chip.led,
        chip.count,
        position(chip.position)
    )?;
    print::changed(rt, "\n    cells", &chip.cells, 0xEE)?;
    let any = moved.any;
    print::flags(
        rt,
        &[
            ("memory", any.memory),
            ("data mode", any.data),
            ("settings", any.settings),
            ("keys and switches", any.inputs),
            ("position", any.position),
        ],
    )?;
    next(rt, family, chip)
}

fn address(rt: &impl Print, address: Pointer) -> io::Result<()> {
    match address {
        Pointer::At(cell) => print!(rt; "    address {}", cell.0),
        Pointer::Invalid => print!(rt; "    address invalid"),
    }
}

fn data(data: Data) -> &'static str {
    match data {
        Data::WriteDisplay => "write display",
        Data::WriteLed => "write LED",
        Data::ReadKeys => "read keys",
        Data::ReadSwitches => "read switches",
    }
}

fn stepping(stepping: Stepping) -> &'static str {
    match stepping {
        Stepping::Increment => "increment",
        Stepping::Fixed => "fixed",
    }
}

fn display(display: Display) -> &'static str {
    match display {
        Display::Off => "off",
        Display::On => "on",
    }
}

fn position(position: Position) -> &'static str {
    match position {
        Position::Idle => "idle",
        Position::First => "first byte",
        Position::Open => "open",
        Position::Ignoring => "ignoring",
    }
}

fn next(rt: &impl Print, family: Family, chip: Segment) -> io::Result<()> {
    match segment_sends::sent_next(family, chip) {
        Sent::Byte(byte) => println!(rt; "; sends {byte}"),
        Sent::NotDriven => println!(rt; "; not driven"),
    }
}
