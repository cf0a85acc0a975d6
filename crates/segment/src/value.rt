// What the next data byte goes to, and what is sent, as values that are told as numbers.
ghost use Rattle.segment.specs.Value.{pointer};
ghost use Rattle.segment.specs.Sent.{sent_number};

use crate::{Pointer, Sent};
use terms::Value;

impl Value for Pointer {
    ghost number = { pointer };

    ghost room = { 257 };

    fn is(self, other: Pointer) -> bool {
        self == other
    }

    fn as_number(self) -> u16 {
        match self {
            Pointer::At(cell) => cell.0 as u16 + 1,
            Pointer::Invalid => 0,
        }
    }
}

impl Value for Sent {
    ghost number = { sent_number };

    ghost room = { 257 };

    fn is(self, other: Sent) -> bool {
        self == other
    }

    fn as_number(self) -> u16 {
        match self {
            Sent::Byte(byte) => byte as u16,
            Sent::NotDriven => 256,
        }
    }
}
