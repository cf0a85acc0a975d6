// Values that are told as numbers: what the rules, and all that is known, have of a fact's value.
ghost use Rattle.std.specs.Prelude.{◌≡◌, ◌<◌, ℕ, eqb};

use crate::Address;

pub trait Value: Copy {
    // The number that stands for the value.
    ghost number: { Self → ℕ };

    // All numbers of values are below it.
    ghost room: { ℕ };

    // Whether both are one value: that is so where their numbers are one.
    fn is(self, other: Self) -> bool
        ensures { result ≡ eqb (number self) (number other) };

    fn as_number(self) -> u16
        ensures { (result ≡ number self) × (number self < room) };
}

impl Value for u8 {
    ghost number = { λ byte. byte };

    ghost room = { 256 };

    fn is(self, other: u8) -> bool {
        self == other
    }

    fn as_number(self) -> u16 {
        self as u16
    }
}

impl Value for Address {
    ghost number = { λ address. address.0 };

    ghost room = { 256 };

    fn is(self, other: Address) -> bool {
        self == other
    }

    fn as_number(self) -> u16 {
        self.0 as u16
    }
}
