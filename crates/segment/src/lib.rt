// PT6312 and PT6315: one family, whose parts differ in a few numbers. Here are their facts and commands as values; the rules in
// specs/ say what an event does to such a chip.
#![tactic(auto)]

mod command;
mod numbers;
mod stepped;
mod value;

ghost use Rattle.std.specs.Prelude.{◌≡◌};
ghost use Rattle.segment.specs.Family.{sizes};

pub use command::Command;
pub use numbers::{
    FIRST, FIXED, IDLE, IGNORING, INCREMENT, OFF, ON, OPEN, READ_KEYS, READ_SWITCHES,
    WRITE_DISPLAY, WRITE_LED,
};
pub use stepped::behind;
use terms::Address;

#[derive(Clone, Copy)]
pub enum Family {
    Pt6312,
    Pt6315,
}

// The numbers in which the parts differ.
#[derive(Clone, Copy)]
pub struct Sizes {
    // Memory cells.
    pub cells: u8,
    // Addresses that an address command can name: its low five bits, or six.
    pub addresses: u8,
    // Codes that a mode command can name: its low three bits, or four.
    pub codes: u8,
    // The highest mode, which all codes above it mean too; also the mode after power.
    pub top: u8,
    // Key bytes.
    pub keys: u8,
    // The LED nibble after power.
    pub led: u8,
    // Whether the part has switches, and the data mode that reads them.
    pub switched: bool,
}

impl Family {
    pub fn sizes(self) -> Sizes
        ensures { result ≡ sizes self }
    {
        match self {
            Family::Pt6312 => Sizes {
                cells: 22,
                addresses: 32,
                codes: 8,
                top: 7,
                keys: 3,
                led: 15,
                switched: true,
            },
            Family::Pt6315 => Sizes {
                cells: 36,
                addresses: 64,
                codes: 16,
                top: 8,
                keys: 4,
                led: 0,
                switched: false,
            },
        }
    }
}

// Where the next data byte goes. It is no `Option`: an invalid address is one that the chip has, and no lack of one.
#[derive(Clone, Copy, Debug, PartialEq, Eq)]
pub enum Pointer {
    At(Address),
    Invalid,
}

// What a byte behind a data setting does. PT6315 has no ReadSwitches.
#[derive(Clone, Copy)]
pub enum Data {
    WriteDisplay,
    WriteLed,
    ReadKeys,
    ReadSwitches,
}

#[derive(Clone, Copy)]
pub enum Stepping {
    Increment,
    Fixed,
}

#[derive(Clone, Copy)]
pub enum Display {
    Off,
    On,
}

#[derive(Clone, Copy)]
pub enum Position {
    Idle,
    First,
    Open,
    Ignoring,
}

// A chip: a value for every fact. PT6312 uses 22 cells and three key bytes, PT6315 no switches; what else stands there is
// no fact of the part, and no move changes it.
#[derive(Clone, Copy)]
pub struct Segment {
    pub cells: [u8; 36],
    pub address: Pointer,
    pub data: Data,
    pub stepping: Stepping,
    pub mode: u8,
    pub dimming: u8,
    pub display: Display,
    pub led: u8,
    pub keys: [u8; 4],
    pub switches: u8,
    pub count: u8,
    pub position: Position,
}

// Which facts a move leaves as anything: all of a sort, or the data mode alone.
#[derive(Clone, Copy)]
pub struct Anything {
    pub memory: bool,
    pub data: bool,
    pub settings: bool,
    pub inputs: bool,
    pub position: bool,
}

// No fact is anything.
pub const NONE: Anything = Anything {
    memory: false,
    data: false,
    settings: false,
    inputs: false,
    position: false,
};

// The chip after a move, and which of its facts are anything: those stand there as they were.
#[derive(Clone, Copy)]
pub struct Moved {
    pub chip: Segment,
    pub any: Anything,
}

// What the chip sends next, if it drives the line. It is no `Option`: that the line is not driven is seen as a byte is, and can be known or unknown as one.
#[derive(Clone, Copy, Debug, PartialEq, Eq)]
pub enum Sent {
    Byte(u8),
    NotDriven,
}
