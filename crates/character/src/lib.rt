// PT6302: its facts as a value and the reading of a first byte as a command; the rules in specs/ say what an event does to such a chip.
#![tactic(auto)]

mod command;
mod numbers;

pub use command::{Command, command_of};
pub use numbers::{ADRAM, CGRAM, DCRAM, FIRST, IDLE, IGNORING, NORMAL, OFF, ON};
use terms::Address;

#[derive(Clone, Copy)]
pub enum Lights {
    Normal,
    Off,
    On,
}

#[derive(Clone, Copy)]
pub enum Position {
    Idle,
    First,
    Dcram,
    Cgram,
    Adram,
    Ignoring,
}

// A chip: a value for every fact. Column k of character n stands at 5 n + k of cgram.
#[derive(Clone, Copy)]
pub struct Character {
    pub dcram: [u8; 16],
    pub cgram: [u8; 40],
    pub adram: [u8; 16],
    pub dcram_at: Address,
    pub cgram_at: Address,
    pub adram_at: Address,
    pub column: u8,
    pub port: u8,
    pub duty: u8,
    pub digits: u8,
    pub lights: Lights,
    pub position: Position,
}

// Which facts a move leaves as anything: all of a sort.
#[derive(Clone, Copy)]
pub struct Anything {
    pub memory: bool,
    pub settings: bool,
    pub position: bool,
}

// No fact is anything.
pub const NONE: Anything = Anything {
    memory: false,
    settings: false,
    position: false,
};

// The chip after a move, and which of its facts are anything: those stand there as they were. One type for this and `segment::Moved` would be two parameters and say nothing.
#[derive(Clone, Copy)]
pub struct Moved {
    pub chip: Character,
    pub any: Anything,
}
