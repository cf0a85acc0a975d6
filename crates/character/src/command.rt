// What a first byte says.
ghost use Rattle.std.specs.Prelude.{◌≡◌};
ghost use Rattle.character.specs.Command.{command_of, spare_of, lights_of};

use crate::Lights;
use terms::Address;

#[derive(Clone, Copy)]
pub enum Command {
    // The address in each RAM from which data goes on.
    Dcram(Address),
    Cgram(Address),
    Adram(Address),
    Port(u8),
    Duty(u8),
    Digits(u8),
    Light(Lights),
    // 80H and 88H.
    Nothing,
    Undefined,
}

// The command that a first byte is, by its high nibble.
pub fn command_of(byte: u8) -> Command
    ensures { result ≡ command_of byte }
{
    match byte / 16 {
        1 => Command::Dcram(Address(byte % 16)),
        2 => Command::Cgram(Address(byte % 8)),
        3 => Command::Adram(Address(byte % 16)),
        4 => Command::Port(byte % 4),
        5 => Command::Duty(byte % 8),
        6 => Command::Digits(byte % 8),
        7 => Command::Light(lights_of(byte)),
        _ => spare_of(byte),
    }
}

fn spare_of(byte: u8) -> Command
    ensures { result ≡ spare_of byte }
{
    match byte {
        0x80 => Command::Nothing,
        0x88 => Command::Nothing,
        _ => Command::Undefined,
    }
}

fn lights_of(byte: u8) -> Lights
    ensures { result ≡ lights_of byte }
{
    if byte / 2 % 2 == 1 {
        return Lights::On;
    }
    if byte % 2 == 1 {
        return Lights::Off;
    }
    Lights::Normal
}
