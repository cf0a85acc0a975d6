// What the program prints of a replay: the answer, and the memory that is known.
#![tactic(auto)]

mod pages;

pub use pages::{ROOM, write_page};
