// The words that everything else speaks: a place in a recording, an address in a chip, a recorded event, and the part that a
// part byte names.
#![tactic(auto)]

mod value;

ghost use Rattle.terms.specs.Part.{Names};

pub use value::Value;

// A place in a recording, counted from its first byte. Refusals carry one.
#[derive(Clone, Copy, Debug, PartialEq, Eq)]
pub struct Place(pub usize);

// An address in a chip: the number of a cell or of a character. Moves take one.
#[derive(Clone, Copy, Debug, PartialEq, Eq)]
pub struct Address(pub u8);

// What a recorder notes.
#[derive(Clone, Copy, Debug, PartialEq, Eq)]
pub enum Event {
    // Power is applied.
    Power,
    // The strobe (PT6302: chip select) falls.
    Falls,
    // One whole byte is clocked in.
    ByteIn(u8),
    // The strobe rises.
    Rises,
    // Events were lost here.
    Gap,
    // The strobe rises after this many bits of an unfinished byte.
    Unfinished(u8),
    // Key data is latched, in reading order.
    Keys(u8, u8, u8, u8),
    // The switches are latched.
    Switches(u8),
    // One whole byte is clocked out.
    ByteOut,
}

// The parts that are mirrored.
#[derive(Clone, Copy, Debug, PartialEq, Eq)]
pub enum Part {
    Pt6302,
    Pt6312,
    Pt6315,
}

// Number 1, at its place: a byte that names no part.
#[derive(Clone, Copy, Debug, PartialEq, Eq)]
pub struct NoPart(pub Place);

// The part that a part byte names.
impl TryFrom<u8> for Part {
    type Error = NoPart;

    ghost try_from_gives = { Names };

    fn try_from(byte: u8) -> Result<Self, NoPart> {
        match byte {
            0x02 => Ok(Part::Pt6302),
            0x12 => Ok(Part::Pt6312),
            0x15 => Ok(Part::Pt6315),
            _ => Err(NoPart(Place(0))),
        }
    }
}
