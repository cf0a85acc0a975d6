// What each event does to a chip.
ghost use Rattle.std.specs.Prelude.{◌≡◌};
ghost use Rattle.rules.specs.Digit.{put_low};
ghost use Rattle.rules.specs.Rule.{gives, free};
ghost use Rattle.segment.specs.Family.{sizes};
ghost use Rattle.segment.specs.View.{By};
ghost use Rattle.segment.specs.Move.{nothing, powered, move};

use crate::bytes::{byte_in, byte_out};
use crate::latches::{keys_latched, switches_latched};
use segment::{Anything, Data, Display, Family, Moved, NONE, Pointer, Position, Segment, Stepping};
use segment_commanded::at;
use terms::{Address, Event};

// The chip after an event.
pub fn moved(family: Family, chip: Segment, event: Event) -> Moved
    ensures { By (move (sizes family) event) chip result }
{
    match event {
        Event::Power => at_power(family, chip),
        Event::Falls => at(chip, Position::First),
        Event::ByteIn(byte) => byte_in(family, chip, byte),
        Event::Rises => at(chip, Position::Idle),
        Event::Gap => lost(chip),
        Event::Unfinished(_) => at(chip, Position::Idle),
        Event::Keys(k0, k1, k2, k3) => keys_latched(family, chip, k0, k1, k2, k3),
        Event::Switches(value) => switches_latched(family, chip, value),
        Event::ByteOut => byte_out(chip),
    }
}

pub fn unchanged(chip: Segment) -> Moved
    ensures { By nothing chip result }
{
    Moved { chip, any: NONE }
}

// The LED with the low nibble of a byte. The bits past the nibble stay, since no rule names them.
pub fn lit(led: u8, byte: u8) -> u8
    ensures { result ≡ put_low 15 led byte }
{
    (led ^ (led & 15)) | (byte & 15)
}

fn at_power(family: Family, chip: Segment) -> Moved
    ensures { By (gives (powered (sizes family))) chip result }
{
    let sizes = family.sizes();
    let chip = Segment {
        address: Pointer::At(Address(0)),
        data: Data::WriteDisplay,
        stepping: Stepping::Increment,
        mode: sizes.top,
        dimming: 0,
        display: Display::Off,
        led: lit(chip.led, sizes.led),
        count: 0,
        position: Position::Idle,
        ..chip
    };
    Moved {
        chip,
        any: Anything {
            memory: true,
            inputs: true,
            ..NONE
        },
    }
}

fn lost(chip: Segment) -> Moved
    ensures { By (gives (λ f. free)) chip result }
{
    Moved {
        chip,
        any: Anything {
            memory: true,
            data: true,
            settings: true,
            inputs: true,
            position: true,
        },
    }
}
