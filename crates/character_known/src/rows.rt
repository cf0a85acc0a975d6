// What is known of the three RAMs, lent together where it stands.
ghost use Rattle.std.specs.Prelude.{◌≡◌};
ghost use Rattle.character_known.specs.Together.{together};

use character_knowledge::{Control, Knowledge};

// Each cell is a code of `lamps`, as in a `Knowledge`.
#[derive(Clone, Copy)]
pub struct Rows {
    pub dcram: [u16; 16],
    pub cgram: [u16; 40],
    pub adram: [u16; 16],
}

impl Rows {
    // With the facts beside the memory it is all that is known.
    pub fn with(self, control: Control) -> Knowledge
        ensures { result ≡ together self control }
    {
        let Rows {
            dcram,
            cgram,
            adram,
        } = self;
        Knowledge {
            dcram,
            cgram,
            adram,
            control,
        }
    }
}
