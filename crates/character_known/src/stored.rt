// Where the address stands behind a run of bytes that were stored one behind the other, each in a function small enough to stand in the loop over the
// records. A run ends at its RAM's last cell at the latest, so that the address goes round once at most.
ghost use Rattle.std.specs.Prelude.{◌≡◌, ◌+◌, ◌≤◌};
ghost use Rattle.character_known.specs.Ram.{text, columns, pairs, aimed};

use character_knowledge::{Control, Pointing};
use fact::Single;
use terms::Address;

// Each RAM has a function of its own, since the walk knows which it is: one for all would match it once more, and be no plainer.
// In DCRAM.
pub fn shown_by(c: Control, first: Address, count: usize) -> Control
    requires { first.0 + count ≤ 16 }
    ensures { result ≡ aimed text c (first.0 + count) }
{
    Control {
        dcram_at: Pointing::Known(Address((first.0 + count as u8) % 16)),
        ..c
    }
}

// In CGRAM, whose columns are numbered through all characters.
pub fn drawn_by(c: Control, first: Address, count: usize) -> Control
    requires { first.0 + count ≤ 40 }
    ensures { result ≡ aimed columns c (first.0 + count) }
{
    let next = first.0 + count as u8;
    let at = if next < 40 { next } else { 0 };
    Control {
        cgram_at: Pointing::Known(Address(at / 5)),
        column: Single::Known(at % 5),
        ..c
    }
}

// In ADRAM.
pub fn marked_by(c: Control, first: Address, count: usize) -> Control
    requires { first.0 + count ≤ 16 }
    ensures { result ≡ aimed pairs c (first.0 + count) }
{
    Control {
        adram_at: Pointing::Known(Address((first.0 + count as u8) % 16)),
        ..c
    }
}
