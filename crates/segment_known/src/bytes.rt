// What a byte clocked in makes of a knowledge.
ghost use Rattle.std.specs.Prelude.{◌≡◌};
ghost use Rattle.rules.specs.Rule.{look};
ghost use Rattle.knowing.specs.Standing.{unknown};
ghost use Rattle.fact.specs.View.{stands};
ghost use Rattle.segment.specs.Fact.{position};
ghost use Rattle.segment.specs.Family.{sizes};
ghost use Rattle.segment.specs.Move.{byte_in};
ghost use Rattle.segment_steps.specs.Step.{Steps};
ghost use Rattle.segment_known.specs.Writes.{Writes};

use crate::commanded::first_in;
use crate::perhaps::perhaps_in;
use crate::stored::stored_by;
use changes::{Change, loosened};
use fact::{Single, both};
use lamps::{FOUR, code_of, meet_code, put_byte};
use segment::Family;
use segment_knowledge::{Control, FIRST, OPEN, Pointing, WRITE_DISPLAY, WRITE_LED};
use segment_steps::{Step, kept};

pub fn byte_in(family: Family, c: Control, byte: u8) -> Step
    ensures { Steps (sizes family) (look position (byte_in (sizes family) byte)) c result }
{
    let position = c.position;
    let Single::Known(place) = position else {
        return perhaps_in(family, c, byte);
    };
    match place {
        FIRST => first_in(family, c, byte),
        OPEN => {
            let next = data_in(family, c, byte);
            let address = next.address;
            let led = next.led;
            let change = next.change;
            Step {
                control: Control { address, led, ..c },
                change,
            }
        }
        _ => kept(c),
    }
}

// All that a data byte may change.
#[derive(Clone, Copy)]
pub struct Written {
    pub address: Pointing,
    pub led: u16,
    pub change: Change,
}

pub fn data_in(family: Family, c: Control, byte: u8) -> Written
    ensures { Writes (sizes family) byte c result }
{
    let data = c.data;
    let Single::Known(mode) = data else {
        return perhaps_written(family, c, byte);
    };
    let address = c.address;
    let led = c.led;
    match mode {
        WRITE_DISPLAY => {
            let stepping = c.stepping;
            let stored = stored_by(family, address, stepping, byte);
            let to = stored.address;
            let change = stored.change;
            Written {
                address: to,
                led,
                change,
            }
        }
        WRITE_LED => Written {
            address,
            led: put_byte(FOUR, led, byte),
            change: Change::Keep,
        },
        _ => Written {
            address,
            led,
            change: Change::Keep,
        },
    }
}

// The byte may have been stored, or gone to the LED, or been ignored.
fn perhaps_written(family: Family, c: Control, byte: u8) -> Written
    requires { stands c.«data» ≡ unknown }
    ensures { Writes (sizes family) byte c result }
{
    let address = c.address;
    let led = c.led;
    let stepping = c.stepping;
    let stored = stored_by(family, address, stepping, byte);
    let to = stored.address;
    let change = stored.change;
    Written {
        address: both(to, address),
        led: meet_code(FOUR, led, code_of(FOUR, byte)),
        change: loosened(change),
    }
}
