// What each event does to a chip.
ghost use Rattle.rules.specs.Rule.{gives, free};
ghost use Rattle.character.specs.View.{By};
ghost use Rattle.character.specs.Move.{nothing, then, powered, move};

use crate::bytes::byte_in;
use character::{Anything, Character, Lights, Moved, NONE, Position};
use terms::{Address, Event};

// The chip after an event. Keys, switches and bytes out are no events of this part, and change nothing.
pub fn moved(chip: Character, event: Event) -> Moved
    ensures { By (move event) chip result }
{
    match event {
        Event::Power => at_power(chip),
        Event::Falls => at(chip, Position::First),
        Event::ByteIn(byte) => byte_in(chip, byte),
        Event::Rises => at(chip, Position::Idle),
        Event::Gap => lost(chip),
        Event::Unfinished(_) => at(chip, Position::Idle),
        Event::Keys(_, _, _, _) => unchanged(chip),
        Event::Switches(_) => unchanged(chip),
        Event::ByteOut => unchanged(chip),
    }
}

pub fn unchanged(chip: Character) -> Moved
    ensures { By nothing chip result }
{
    Moved { chip, any: NONE }
}

// Only the position changes.
pub fn at(chip: Character, position: Position) -> Moved
    ensures { By (gives (then position)) chip result }
{
    Moved {
        chip: Character { position, ..chip },
        any: NONE,
    }
}

fn at_power(chip: Character) -> Moved
    ensures { By (gives powered) chip result }
{
    Moved {
        chip: Character {
            dcram_at: Address(0),
            cgram_at: Address(0),
            adram_at: Address(0),
            column: 0,
            port: chip.port ^ (chip.port & 3),
            duty: 0,
            digits: 0,
            lights: Lights::Off,
            position: Position::Idle,
            ..chip
        },
        any: Anything {
            memory: true,
            ..NONE
        },
    }
}

fn lost(chip: Character) -> Moved
    ensures { By (gives (λ f. free)) chip result }
{
    Moved {
        chip,
        any: Anything {
            memory: true,
            settings: true,
            position: true,
        },
    }
}
