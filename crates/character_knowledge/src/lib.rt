// What is known of a PT6302 panel, as a value.
#![tactic(auto)]

ghost use Rattle.std.specs.Prelude.{◌≡◌};
ghost use Rattle.knowing.specs.Standing.{unknown};
ghost use Rattle.knowing.specs.Ways.{Learns};
ghost use Rattle.character.specs.Fact.{Fact, same?, position};
ghost use Rattle.character_knowledge.specs.View.{Memory, blank, cview, kview};

pub use character::{ADRAM, CGRAM, DCRAM, FIRST, IDLE, IGNORING, NORMAL, OFF, ON};
use fact::Single;
use terms::Address;

// An address, known or unknown: it is always that of a cell.
pub type Pointing = Single<Address>;

// What is known beside the memory: what an event goes by, small enough to be handed on by value. The port is a code of `lamps`, bit by bit.
#[derive(Clone, Copy)]
pub struct Control {
    pub dcram_at: Pointing,
    pub cgram_at: Pointing,
    pub adram_at: Pointing,
    pub column: Single<u8>,
    pub port: u16,
    pub duty: Single<u8>,
    pub digits: Single<u8>,
    pub lights: Single<u8>,
    pub position: Single<u8>,
}

// Nothing is known.
pub fn no_control() -> Control
    ensures { (f : Fact) → cview blank result f ≡ unknown }
{
    Control {
        dcram_at: Pointing::Unknown,
        cgram_at: Pointing::Unknown,
        adram_at: Pointing::Unknown,
        column: Single::Unknown,
        port: 0,
        duty: Single::Unknown,
        digits: Single::Unknown,
        lights: Single::Unknown,
        position: Single::Unknown,
    }
}

// The same with the position known.
pub fn at(c: Control, place: u8) -> Control
    ensures { (m : Memory) → Learns (cview m) same? position place c result }
{
    Control {
        position: Single::Known(place),
        ..c
    }
}

// What is known of a panel: its memory, and all else. A cell of a RAM is a code of `lamps`, bit by bit; column k of
// character n stands at 5 n + k of cgram.
#[derive(Clone, Copy)]
pub struct Knowledge {
    pub dcram: [u16; 16],
    pub cgram: [u16; 40],
    pub adram: [u16; 16],
    pub control: Control,
}

pub fn nothing_known() -> Knowledge
    ensures { (f : Fact) → kview result f ≡ unknown }
{
    Knowledge {
        dcram: [0; 16],
        cgram: [0; 40],
        adram: [0; 16],
        control: no_control(),
    }
}
