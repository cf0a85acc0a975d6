// What the programs that run examples share: their input is read, lines of hex and words in it, and rows of bytes are written.
#![tactic(auto)]

mod hex;
mod line;
mod program;
mod word;

pub use hex::Hex;
pub use line::Line;
pub use program::run_examples;
pub use word::{INVALID, UNKNOWN, Word};
