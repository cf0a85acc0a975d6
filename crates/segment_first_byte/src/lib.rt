// The reading of a first byte as a command of PT6312 or PT6315.
#![tactic(auto)]

ghost use Rattle.std.specs.Prelude.{◌≡◌};
ghost use Rattle.segment.specs.Command.{command_of, mode_of, stepping_of, setting_of, display_of, pointer_of};
ghost use Rattle.segment.specs.Family.{sizes};

use segment::{Command, Data, Display, Family, Pointer, Stepping};
use terms::Address;

// The command that a first byte is, by its top two bits.
pub fn command_of(family: Family, byte: u8) -> Command
    ensures { result ≡ command_of (sizes family) byte }
{
    match byte / 64 {
        0 => Command::Mode(mode_of(family, byte)),
        1 => setting_of(family, byte),
        2 => Command::Control(byte % 8, display_of(byte)),
        _ => Command::Start(pointer_of(family, byte)),
    }
}

fn mode_of(family: Family, byte: u8) -> u8
    ensures { result ≡ mode_of (sizes family) byte }
{
    match family {
        Family::Pt6312 => byte % 8,
        Family::Pt6315 => (byte % 16).min(8),
    }
}

fn stepping_of(byte: u8) -> Stepping
    ensures { result ≡ stepping_of byte }
{
    if byte / 4 % 2 == 1 {
        Stepping::Fixed
    } else {
        Stepping::Increment
    }
}

fn setting_of(family: Family, byte: u8) -> Command
    ensures { result ≡ setting_of (sizes family) byte }
{
    let stepping = stepping_of(byte);
    if byte / 8 % 2 == 1 {
        return Command::Test;
    }
    match byte % 4 {
        0 => Command::Setting(Data::WriteDisplay, stepping),
        1 => Command::Setting(Data::WriteLed, stepping),
        2 => Command::Setting(Data::ReadKeys, stepping),
        _ => match family {
            Family::Pt6312 => Command::Setting(Data::ReadSwitches, stepping),
            Family::Pt6315 => Command::AnySetting(stepping),
        },
    }
}

fn display_of(byte: u8) -> Display
    ensures { result ≡ display_of byte }
{
    if byte / 8 % 2 == 1 {
        Display::On
    } else {
        Display::Off
    }
}

fn pointer_of(family: Family, byte: u8) -> Pointer
    ensures { result ≡ pointer_of (sizes family) byte }
{
    match family {
        Family::Pt6312 => if byte % 32 < 22 {
            Pointer::At(Address(byte % 32))
        } else {
            Pointer::Invalid
        },
        Family::Pt6315 => if byte % 64 < 36 {
            Pointer::At(Address(byte % 64))
        } else {
            Pointer::Invalid
        },
    }
}
