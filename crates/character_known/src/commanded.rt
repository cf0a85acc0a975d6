// What a first byte makes of a knowledge.
ghost use Rattle.std.specs.Prelude.{◌≡◌};
ghost use Rattle.rules.specs.Rule.{gives};
ghost use Rattle.character.specs.Command.{command_of};
ghost use Rattle.character.specs.Move.{commanded};
ghost use Rattle.character_steps.specs.Step.{Keeps, Forgets, Steps};

use character::{Command, Lights, command_of};
use character_knowledge::{ADRAM, CGRAM, Control, DCRAM, IGNORING, Pointing, at, no_control};
use character_steps::{Step, forgotten, kept};
use fact::Single;
use lamps::{TWO, put_byte};
use terms::Address;

pub fn first_in(mut c: Control, byte: u8) -> Step
    ensures { Steps (gives (commanded (command_of byte))) c result }
{
    let command = command_of(byte);
    match command {
        Command::Undefined => {
            c = undefined_in();
            return forgotten(c);
        }
        Command::Dcram(address) => c = show_from(c, address),
        Command::Cgram(address) => c = draw_from(c, address),
        Command::Adram(address) => c = mark_from(c, address),
        Command::Port(bits) => c = port_set(c, bits),
        Command::Duty(duty) => c = duty_set(c, duty),
        Command::Digits(digits) => c = digits_set(c, digits),
        Command::Light(lights) => c = lights_set(c, lights),
        Command::Nothing => c = ignoring_on(c),
    }
    kept(c)
}

// Each command sets other facts, so that one function for all would only be the match of `first_in` again.
pub fn show_from(c: Control, address: Address) -> Control
    ensures { Keeps (gives (commanded (Command.Dcram address))) c result }
{
    Control {
        dcram_at: Pointing::Known(address),
        position: Single::Known(DCRAM),
        ..c
    }
}

pub fn draw_from(c: Control, address: Address) -> Control
    ensures { Keeps (gives (commanded (Command.Cgram address))) c result }
{
    Control {
        cgram_at: Pointing::Known(address),
        column: Single::Known(0),
        position: Single::Known(CGRAM),
        ..c
    }
}

pub fn mark_from(c: Control, address: Address) -> Control
    ensures { Keeps (gives (commanded (Command.Adram address))) c result }
{
    Control {
        adram_at: Pointing::Known(address),
        position: Single::Known(ADRAM),
        ..c
    }
}

pub fn port_set(c: Control, bits: u8) -> Control
    ensures { Keeps (gives (commanded (Command.Port bits))) c result }
{
    let old = c.port;
    let port = put_byte(TWO, old, bits);
    Control {
        port,
        position: Single::Known(IGNORING),
        ..c
    }
}

pub fn duty_set(c: Control, duty: u8) -> Control
    ensures { Keeps (gives (commanded (Command.Duty duty))) c result }
{
    Control {
        duty: Single::Known(duty),
        position: Single::Known(IGNORING),
        ..c
    }
}

pub fn digits_set(c: Control, digits: u8) -> Control
    ensures { Keeps (gives (commanded (Command.Digits digits))) c result }
{
    Control {
        digits: Single::Known(digits),
        position: Single::Known(IGNORING),
        ..c
    }
}

pub fn lights_set(c: Control, lights: Lights) -> Control
    ensures { Keeps (gives (commanded (Command.Light lights))) c result }
{
    let number = u8::from(lights);
    Control {
        lights: Single::Known(number),
        position: Single::Known(IGNORING),
        ..c
    }
}

// Nothing is done, and what follows is ignored.
pub fn ignoring_on(c: Control) -> Control
    ensures { Keeps (gives (commanded Command.Nothing)) c result }
{
    at(c, IGNORING)
}

// Everything becomes anything, and what follows is ignored.
pub fn undefined_in() -> Control
    ensures { (c : Control) → Forgets (gives (commanded Command.Undefined)) c result }
{
    at(no_control(), IGNORING)
}
