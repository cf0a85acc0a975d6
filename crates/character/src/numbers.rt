// The numbers that stand for values with a name, as `character/Value` has them. What is known is kept as such a number and not as a value of these types, since a
// knowledge that is handed in may hold a number out of range, which number 2 refuses (`knowing/Standing.Sound`).
ghost use Rattle.std.specs.Prelude.{◌≡◌};
ghost use Rattle.character.specs.Value.{lit};

use crate::Lights;

pub const IDLE: u8 = 0;

pub const FIRST: u8 = 1;

pub const DCRAM: u8 = 2;

pub const CGRAM: u8 = 3;

pub const ADRAM: u8 = 4;

pub const IGNORING: u8 = 5;

pub const NORMAL: u8 = 0;

pub const OFF: u8 = 1;

pub const ON: u8 = 2;

impl From<Lights> for u8 {
    ghost from_gives = { λ lights number. number ≡ lit lights };

    fn from(lights: Lights) -> u8 {
        match lights {
            Lights::Normal => NORMAL,
            Lights::Off => OFF,
            Lights::On => ON,
        }
    }
}
