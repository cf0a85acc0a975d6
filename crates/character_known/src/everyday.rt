// The events of every day, each in a function small enough to stand in the loop over the records: chip select, and a data byte whose RAM is known, with
// its place there.
ghost use Rattle.std.specs.Prelude.{◌≡◌};
ghost use Rattle.knowing.specs.Standing.{known};
ghost use Rattle.fact.specs.View.{stands};
ghost use Rattle.terms.specs.declared.Event.TheVariants.{Falls, Rises};
ghost use Rattle.character.specs.declared.Position.TheVariants.{Dcram, Cgram, Adram};
ghost use Rattle.character.specs.Value.{at_position};
ghost use Rattle.character.specs.Move.{move};
ghost use Rattle.character_steps.specs.Step.{Keeps};
ghost use Rattle.character_known.specs.Everyday.{Hits};

use character_knowledge::{ADRAM, CGRAM, Control, DCRAM, FIRST, IDLE, Pointing, at};
use fact::Single;
use terms::Address;

pub fn falls(c: Control) -> Control
    ensures { Keeps (move Falls) c result }
{
    at(c, FIRST)
}

pub fn rises(c: Control) -> Control
    ensures { Keeps (move Rises) c result }
{
    at(c, IDLE)
}

// Where a byte goes, as far as the events of every day ask.
#[derive(Clone, Copy)]
pub enum Target {
    // To this cell of DCRAM.
    Shown(Address),
    // To this column of CGRAM, numbered through all characters.
    Drawn(Address),
    // To this cell of ADRAM.
    Marked(Address),
    // It is ignored.
    Nowhere,
    Elsewhere,
}

pub fn goes_to(c: Control) -> Target
    ensures { Hits c result }
{
    let position = c.position;
    let Single::Known(place) = position else {
        return Target::Elsewhere;
    };
    match place {
        FIRST => Target::Elsewhere,
        DCRAM => shows(c),
        CGRAM => draws(c),
        ADRAM => marks(c),
        _ => Target::Nowhere,
    }
}

// Each RAM has a function of its own: one for all would match the RAM for its address, its cells and its target, and be no plainer.
fn shows(c: Control) -> Target
    requires { stands c.position ≡ known (at_position Dcram) }
    ensures { Hits c result }
{
    let to = c.dcram_at;
    if let Pointing::Known(cell) = to {
        if cell.0 < 16 {
            return Target::Shown(cell);
        }
    }
    Target::Elsewhere
}

fn draws(c: Control) -> Target
    requires { stands c.position ≡ known (at_position Cgram) }
    ensures { Hits c result }
{
    let to = c.cgram_at;
    let column = c.column;
    if let Pointing::Known(character) = to {
        if let Single::Known(number) = column {
            if character.0 < 8 {
                if number < 5 {
                    return Target::Drawn(Address(character.0 * 5 + number));
                }
            }
        }
    }
    Target::Elsewhere
}

fn marks(c: Control) -> Target
    requires { stands c.position ≡ known (at_position Adram) }
    ensures { Hits c result }
{
    let to = c.adram_at;
    if let Pointing::Known(cell) = to {
        if cell.0 < 16 {
            return Target::Marked(cell);
        }
    }
    Target::Elsewhere
}
