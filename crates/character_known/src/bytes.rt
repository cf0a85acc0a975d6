// What a byte clocked in makes of a knowledge.
ghost use Rattle.rules.specs.Rule.{look};
ghost use Rattle.character.specs.Fact.{position, dcram_at, adram_at};
ghost use Rattle.character.specs.Move.{shown, marked, byte_in};
ghost use Rattle.character_steps.specs.Step.{Steps};

use crate::anywhere::in_anywhere;
use crate::columns::to_draw;
use crate::commanded::first_in;
use crate::stored::{marked_by, shown_by};
use changes::Change;
use character_knowledge::{ADRAM, CGRAM, Control, DCRAM, FIRST, Pointing};
use character_steps::{Step, kept};
use fact::Single;
use terms::Address;

pub fn byte_in(c: Control, byte: u8) -> Step
    ensures { Steps (look position (byte_in byte)) c result }
{
    let position = c.position;
    match position {
        Single::Known(place) => match place {
            FIRST => first_in(c, byte),
            DCRAM => to_show(c, byte),
            CGRAM => to_draw(c, byte),
            ADRAM => to_mark(c, byte),
            _ => kept(c),
        },
        Single::Unknown => in_anywhere(c, byte),
    }
}

// A byte goes to DCRAM, and the other RAMs stay. One function for DCRAM and ADRAM would match the RAM for its address, for what follows and for its change, and be no plainer.
fn to_show(mut c: Control, byte: u8) -> Step
    ensures { Steps (look dcram_at (shown byte)) c result }
{
    let to = c.dcram_at;
    let dcram = match to {
        Pointing::Known(address) => {
            let cell = address.0 % 16;
            c = shown_by(c, Address(cell), 1);
            Change::Put(Address(cell), byte)
        }
        Pointing::Unknown => Change::Meet(Address(0), 1, 16, byte),
    };
    Step {
        control: c,
        dcram,
        cgram: Change::Keep,
        adram: Change::Keep,
    }
}

// A pair of bits goes to ADRAM, and the other RAMs stay. The change carries the byte as it comes: the row takes two bits of it.
fn to_mark(mut c: Control, byte: u8) -> Step
    ensures { Steps (look adram_at (marked byte)) c result }
{
    let to = c.adram_at;
    let adram = match to {
        Pointing::Known(address) => {
            let cell = address.0 % 16;
            c = marked_by(c, Address(cell), 1);
            Change::Put(Address(cell), byte)
        }
        Pointing::Unknown => Change::Meet(Address(0), 1, 16, byte),
    };
    Step {
        control: c,
        dcram: Change::Keep,
        cgram: Change::Keep,
        adram,
    }
}
