// The numbers that stand for values with a name, as `segment/Value` has them. What is known is kept as such a number and not as a value of these types, since a
// knowledge that is handed in may hold a number out of range, which number 2 refuses (`knowing/Standing.Sound`).
ghost use Rattle.std.specs.Prelude.{◌≡◌};
ghost use Rattle.segment.specs.Value.{data_mode_of, steps, shows};

use crate::{Data, Display, Stepping};

pub const IDLE: u8 = 0;

pub const FIRST: u8 = 1;

pub const OPEN: u8 = 2;

pub const IGNORING: u8 = 3;

pub const WRITE_DISPLAY: u8 = 0;

pub const WRITE_LED: u8 = 1;

pub const READ_KEYS: u8 = 2;

pub const READ_SWITCHES: u8 = 3;

pub const INCREMENT: u8 = 0;

pub const FIXED: u8 = 1;

pub const OFF: u8 = 0;

pub const ON: u8 = 1;

impl From<Data> for u8 {
    ghost from_gives = { λ mode number. number ≡ data_mode_of mode };

    fn from(mode: Data) -> u8 {
        match mode {
            Data::WriteDisplay => WRITE_DISPLAY,
            Data::WriteLed => WRITE_LED,
            Data::ReadKeys => READ_KEYS,
            Data::ReadSwitches => READ_SWITCHES,
        }
    }
}

impl From<Stepping> for u8 {
    ghost from_gives = { λ stepping number. number ≡ steps stepping };

    fn from(stepping: Stepping) -> u8 {
        match stepping {
            Stepping::Increment => INCREMENT,
            Stepping::Fixed => FIXED,
        }
    }
}

impl From<Display> for u8 {
    ghost from_gives = { λ display number. number ≡ shows display };

    fn from(display: Display) -> u8 {
        match display {
            Display::Off => OFF,
            Display::On => ON,
        }
    }
}
