// What a byte clocked in or out does to a chip.
ghost use Rattle.std.specs.Prelude.{◌<◌};
ghost use Rattle.segment.specs.Family.{sizes};
ghost use Rattle.segment.specs.View.{By};
ghost use Rattle.segment.specs.Value.{pointer, data_mode_of, steps, at_position};
ghost use Rattle.segment.specs.Move.{stored_at, stored, written, byte_in, counted, read_out, byte_out};

use crate::moves::{lit, unchanged};
use segment::{Data, Family, Moved, NONE, Pointer, Position, Segment, Stepping, behind};
use segment_commanded::commanded;
use segment_first_byte::command_of;
use terms::Address;

pub fn byte_in(family: Family, chip: Segment, byte: u8) -> Moved
    ensures { By (byte_in (sizes family) byte (at_position chip.position)) chip result }
{
    let position = chip.position;
    match position {
        Position::First => commanded(chip, command_of(family, byte)),
        Position::Open => written_in(family, chip, byte),
        Position::Idle => unchanged(chip),
        Position::Ignoring => unchanged(chip),
    }
}

fn written_in(family: Family, mut chip: Segment, byte: u8) -> Moved
    ensures { By (written (sizes family) byte (data_mode_of chip.«data»)) chip result }
{
    let data = chip.data;
    match data {
        Data::WriteDisplay => stored_by(family, chip, byte),
        Data::WriteLed => {
            chip.led = lit(chip.led, byte);
            Moved { chip, any: NONE }
        }
        Data::ReadKeys => unchanged(chip),
        Data::ReadSwitches => unchanged(chip),
    }
}

// A data byte goes to the address.
fn stored_by(family: Family, chip: Segment, byte: u8) -> Moved
    ensures { By (stored (sizes family) byte (pointer chip.address)) chip result }
{
    let address = chip.address;
    match address {
        Pointer::At(cell) => {
            let sizes = family.sizes();
            if cell.0 < sizes.cells {
                stored_at(family, chip, byte, cell)
            } else {
                unchanged(chip)
            }
        }
        Pointer::Invalid => unchanged(chip),
    }
}

fn stored_at(family: Family, mut chip: Segment, byte: u8, cell: Address) -> Moved
    requires { cell.0 < (sizes family).cells }
    ensures { By (stored_at (sizes family) byte cell.0 (steps chip.stepping)) chip result }
{
    let i = cell.0 as usize;
    chip.cells[i] = byte;
    let stepping = chip.stepping;
    match stepping {
        Stepping::Increment => {
            let address = behind(family, cell);
            Moved {
                chip: Segment { address, ..chip },
                any: NONE,
            }
        }
        Stepping::Fixed => Moved { chip, any: NONE },
    }
}

pub fn byte_out(chip: Segment) -> Moved
    ensures { By (byte_out (at_position chip.position)) chip result }
{
    let position = chip.position;
    match position {
        Position::Open => read_out(chip),
        Position::Idle => unchanged(chip),
        Position::First => unchanged(chip),
        Position::Ignoring => unchanged(chip),
    }
}

fn read_out(chip: Segment) -> Moved
    ensures { By (read_out (data_mode_of chip.«data»)) chip result }
{
    let data = chip.data;
    match data {
        Data::ReadKeys => counted_up(chip),
        Data::ReadSwitches => counted_up(chip),
        Data::WriteDisplay => unchanged(chip),
        Data::WriteLed => unchanged(chip),
    }
}

fn counted_up(mut chip: Segment) -> Moved
    ensures { By (counted chip.count) chip result }
{
    chip.count = if chip.count < 4 { chip.count + 1 } else { 4 };
    Moved { chip, any: NONE }
}
