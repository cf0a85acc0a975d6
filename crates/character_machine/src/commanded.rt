// What a command does to a chip.
ghost use Rattle.rules.specs.Rule.{gives};
ghost use Rattle.character.specs.View.{By};
ghost use Rattle.character.specs.Move.{commanded, undefined};

use crate::moves::at;
use character::{Anything, Character, Command, Moved, Position};

pub fn commanded(chip: Character, command: Command) -> Moved
    ensures { By (gives (commanded command)) chip result }
{
    match command {
        Command::Dcram(address) => at(
            Character {
                dcram_at: address,
                ..chip
            },
            Position::Dcram,
        ),
        Command::Cgram(address) => at(
            Character {
                cgram_at: address,
                column: 0,
                ..chip
            },
            Position::Cgram,
        ),
        Command::Adram(address) => at(
            Character {
                adram_at: address,
                ..chip
            },
            Position::Adram,
        ),
        Command::Port(bits) => {
            let mut new = chip;
            new.port = (chip.port ^ (chip.port & 3)) | (bits & 3);
            at(new, Position::Ignoring)
        }
        Command::Duty(duty) => {
            let mut new = chip;
            new.duty = duty;
            at(new, Position::Ignoring)
        }
        Command::Digits(digits) => {
            let mut new = chip;
            new.digits = digits;
            at(new, Position::Ignoring)
        }
        Command::Light(lights) => at(Character { lights, ..chip }, Position::Ignoring),
        Command::Nothing => at(chip, Position::Ignoring),
        Command::Undefined => left_open(chip),
    }
}

// Everything but the position is anything.
fn left_open(chip: Character) -> Moved
    ensures { By (gives undefined) chip result }
{
    Moved {
        chip: Character {
            position: Position::Ignoring,
            ..chip
        },
        any: Anything {
            memory: true,
            settings: true,
            position: false,
        },
    }
}
