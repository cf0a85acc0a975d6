// What a column clocked in makes of a knowledge: it goes to CGRAM, and the other RAMs stay. Where the character or the column is unknown, it may be
// in any of several places. The change carries the byte as it comes: the row takes seven bits of it.
ghost use Rattle.std.specs.Prelude.{◌≡◌};
ghost use Rattle.rules.specs.Rule.{look};
ghost use Rattle.knowing.specs.Standing.{known, unknown};
ghost use Rattle.character.specs.Fact.{cgram_at, column};
ghost use Rattle.character.specs.Move.{drawn};
ghost use Rattle.character_knowledge.specs.View.{points};
ghost use Rattle.character_steps.specs.Step.{Steps};
ghost use Rattle.character_known.specs.Places.{placed};

use changes::Change;
use character_knowledge::{Control, Pointing};
use character_steps::Step;
use fact::Single;
use terms::Address;

pub fn to_draw(c: Control, byte: u8) -> Step
    ensures { Steps (look cgram_at (λ a. look column (drawn byte a))) c result }
{
    let to = c.cgram_at;
    match to {
        Pointing::Known(address) => draw_in(c, byte, address),
        Pointing::Unknown => draw_anywhere(c, byte),
    }
}

// The character is known. Where the column is too, the next one follows, of this character or of the one behind it.
fn draw_in(mut c: Control, byte: u8, address: Address) -> Step
    requires { points c.cgram_at ≡ known address.0 }
    ensures { Steps (look column (drawn byte address.0)) c result }
{
    let character = address.0 % 8;
    let column = c.column;
    let cgram = match column {
        Single::Known(number) => {
            let at = number % 5;
            let to = if at == 4 {
                (character + 1) % 8
            } else {
                address.0
            };
            c = drawing(c, Pointing::Known(Address(to)), Single::Known((at + 1) % 5));
            Change::Put(Address(character * 5 + at), byte)
        }
        Single::Unknown => {
            c = drawing(c, Pointing::Unknown, column);
            Change::Meet(Address(character * 5), 1, 5, byte)
        }
    };
    Step {
        control: c,
        dcram: Change::Keep,
        cgram,
        adram: Change::Keep,
    }
}

// The character is unknown, and stays so.
fn draw_anywhere(mut c: Control, byte: u8) -> Step
    requires { points c.cgram_at ≡ unknown }
    ensures { Steps (look cgram_at (λ a. look column (drawn byte a))) c result }
{
    let column = c.column;
    let cgram = match column {
        Single::Known(number) => {
            let at = number % 5;
            c = drawing(c, Pointing::Unknown, Single::Known((at + 1) % 5));
            Change::Meet(Address(at), 5, 8, byte)
        }
        Single::Unknown => Change::Meet(Address(0), 1, 40, byte),
    };
    Step {
        control: c,
        dcram: Change::Keep,
        cgram,
        adram: Change::Keep,
    }
}

// The same with another place in CGRAM.
fn drawing(c: Control, cgram_at: Pointing, column: Single<u8>) -> Control
    ensures { result ≡ placed c cgram_at column }
{
    Control {
        cgram_at,
        column,
        ..c
    }
}
