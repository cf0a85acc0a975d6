// Tests of codes that are known bit by bit, as `lamps` has them: number 2, of one code and of a row, and whether a row says anything.
#![tactic(auto)]

mod code;
mod rows;

pub use code::lamps_sound;
pub use rows::{all_sound, none_known};
