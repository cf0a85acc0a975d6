// What is known of a PT6312 or PT6315 panel, as a value.
#![tactic(auto)]

ghost use Rattle.std.specs.Prelude.{◌≡◌, ℕ};
ghost use Rattle.knowing.specs.Standing.{Standing as OfStanding, unknown};
ghost use Rattle.knowing.specs.Ways.{Learns};
ghost use Rattle.segment.specs.Fact.{Fact, same?, data_mode, position};
ghost use Rattle.segment_knowledge.specs.View.{cview, kview};

use fact::Single;
use segment::Pointer;
pub use segment::{
    FIRST, FIXED, IDLE, IGNORING, INCREMENT, OFF, ON, OPEN, READ_KEYS, READ_SWITCHES,
    WRITE_DISPLAY, WRITE_LED,
};

// The address: known to be a cell, or invalid, or unknown.
pub type Pointing = Single<Pointer>;

// What is known beside the memory: what an event goes by, small enough to be handed on by value. The LED is a code of `lamps`, bit by bit. A key byte that is 256 is unknown, and one below is known to be that.
#[derive(Clone, Copy)]
pub struct Control {
    pub address: Pointing,
    pub data: Single<u8>,
    pub stepping: Single<u8>,
    pub mode: Single<u8>,
    pub dimming: Single<u8>,
    pub display: Single<u8>,
    pub led: u16,
    pub keys: [u16; 4],
    pub switches: Single<u8>,
    pub count: Single<u8>,
    pub position: Single<u8>,
}

// Nothing is known.
pub fn no_control() -> Control
    ensures { (f : Fact) → cview (λ i k. unknown) result f ≡ unknown }
{
    Control {
        address: Pointing::Unknown,
        data: Single::Unknown,
        stepping: Single::Unknown,
        mode: Single::Unknown,
        dimming: Single::Unknown,
        display: Single::Unknown,
        led: 0,
        keys: [256; 4],
        switches: Single::Unknown,
        count: Single::Unknown,
        position: Single::Unknown,
    }
}

// The same with the position known.
pub fn at(c: Control, place: u8) -> Control
    ensures { (cells : ℕ → ℕ → OfStanding) → Learns (cview cells) same? position place c result }
{
    Control {
        position: Single::Known(place),
        ..c
    }
}

// The same with the data mode known.
pub fn with_data(c: Control, mode: u8) -> Control
    ensures { (cells : ℕ → ℕ → OfStanding) → Learns (cview cells) same? data_mode mode c result }
{
    Control {
        data: Single::Known(mode),
        ..c
    }
}

// What is known of a panel: its memory, and all else. A cell is a code of `lamps`, bit by bit: 0 knows nothing.
#[derive(Clone, Copy)]
pub struct Knowledge {
    pub cells: [u16; 36],
    pub control: Control,
}

pub fn nothing_known() -> Knowledge
    ensures { (f : Fact) → kview result f ≡ unknown }
{
    Knowledge {
        cells: [0; 36],
        control: no_control(),
    }
}
