// A byte whose place is not known: whose RAM is known, and each place of it may be the one; or that may be a command, or go to any place of any RAM. A run of such bytes is met with the
// memory once.
ghost use Rattle.character_known.specs.Ram.{Gone};

use character_knowledge::{ADRAM, CGRAM, Control, DCRAM, Pointing};
use fact::Single;

#[derive(Clone, Copy)]
pub enum Astray {
    // Anywhere in DCRAM, CGRAM, ADRAM.
    Shown,
    Drawn,
    Marked,
    // Anywhere at all.
    Anywhere,
    // Nothing of the kind.
    Not,
}

pub fn strays(c: Control) -> Astray
    ensures { Gone c result }
{
    match c {
        Control {
            position: Single::Known(DCRAM),
            dcram_at: Pointing::Unknown,
            ..
        } => Astray::Shown,
        Control {
            position: Single::Known(CGRAM),
            cgram_at: Pointing::Unknown,
            column: Single::Unknown,
            ..
        } => Astray::Drawn,
        Control {
            position: Single::Known(ADRAM),
            adram_at: Pointing::Unknown,
            ..
        } => Astray::Marked,
        Control {
            position: Single::Unknown,
            dcram_at: Pointing::Unknown,
            cgram_at: Pointing::Unknown,
            adram_at: Pointing::Unknown,
            column: Single::Unknown,
            ..
        } => Astray::Anywhere,
        _ => Astray::Not,
    }
}
