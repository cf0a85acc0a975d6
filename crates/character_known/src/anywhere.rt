// A byte at an unknown position.
ghost use Rattle.std.specs.Prelude.{◌≡◌};
ghost use Rattle.rules.specs.Rule.{look};
ghost use Rattle.knowing.specs.Standing.{unknown};
ghost use Rattle.fact.specs.View.{stands};
ghost use Rattle.character.specs.Command.{Defined};
ghost use Rattle.character.specs.Fact.{position};
ghost use Rattle.character.specs.Move.{byte_in};
ghost use Rattle.character_steps.specs.Step.{Steps};
ghost use Rattle.character_known.specs.Weakened.{met_at, met_column, Weakens};

use changes::Change;
use character::{Command, command_of};
use character_knowledge::{Control, Pointing};
use character_steps::{Step, lost};
use fact::{Single, both};
use lamps::{TWO, code_of, meet_code};
use terms::Address;

// It may be a command, go to any RAM, or do nothing. As it may do nothing, what was known is only weakened: what the byte would set or store has in common with that what stood there.
pub fn in_anywhere(c: Control, byte: u8) -> Step
    requires { stands c.position ≡ unknown }
    ensures { Steps (look position (byte_in byte)) c result }
{
    let command = command_of(byte);
    if let Command::Undefined = command {
        return lost(c);
    }
    let shown = c.dcram_at;
    let drawn = c.cgram_at;
    let column = c.column;
    let marked = c.adram_at;
    Step {
        control: weakened(c, command),
        dcram: met_cells(shown, byte),
        cgram: met_columns(drawn, column, byte),
        adram: met_cells(marked, byte),
    }
}

// What a command that may have come, and data that may have come, leave known beside the memory. An address that is known goes on to another one, and so is unknown; but that in CGRAM
// stays before the last column.
pub fn weakened(c: Control, command: Command) -> Control
    requires { Defined command }
    ensures { Weakens command c result }
{
    let mut cgram_at = c.cgram_at;
    let column = c.column;
    let last = match column {
        Single::Known(number) => number % 5 == 4,
        Single::Unknown => true,
    };
    if last {
        cgram_at = Pointing::Unknown;
    }
    let mut port = c.port;
    let mut duty = c.duty;
    let mut digits = c.digits;
    let mut lights = c.lights;
    match command {
        Command::Cgram(address) => cgram_at = both(cgram_at, Pointing::Known(address)),
        Command::Port(bits) => port = meet_code(TWO, port, code_of(TWO, bits)),
        Command::Duty(value) => duty = both(duty, Single::Known(value)),
        Command::Digits(value) => digits = both(digits, Single::Known(value)),
        Command::Light(value) => {
            lights = both(lights, Single::Known(u8::from(value)));
        }
        Command::Dcram(_) => {}
        Command::Adram(_) => {}
        Command::Nothing => {}
        Command::Undefined => {}
    }
    let position = c.position;
    Control {
        dcram_at: Pointing::Unknown,
        cgram_at,
        adram_at: Pointing::Unknown,
        column: Single::Unknown,
        port,
        duty,
        digits,
        lights,
        position,
    }
}

// The cells of DCRAM or ADRAM that a byte may have gone to.
fn met_cells(to: Pointing, byte: u8) -> Change
    ensures { result ≡ met_at to byte }
{
    match to {
        Pointing::Known(address) => Change::Meet(Address(address.0 % 16), 1, 1, byte),
        Pointing::Unknown => Change::Meet(Address(0), 1, 16, byte),
    }
}

// The columns of CGRAM.
fn met_columns(to: Pointing, column: Single<u8>, byte: u8) -> Change
    ensures { result ≡ met_column to column byte }
{
    match to {
        Pointing::Known(address) => {
            let first = address.0 % 8 * 5;
            match column {
                Single::Known(number) => Change::Meet(Address(first + number % 5), 1, 1, byte),
                Single::Unknown => Change::Meet(Address(first), 1, 5, byte),
            }
        }
        Pointing::Unknown => match column {
            Single::Known(number) => Change::Meet(Address(number % 5), 5, 8, byte),
            Single::Unknown => Change::Meet(Address(0), 1, 40, byte),
        },
    }
}
