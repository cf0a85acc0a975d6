// A checksum of what a replay gave: its answer, and every fact of the part.
#![tactic(auto)]

mod characters;
mod panels;
mod segments;
mod sum;

pub use panels::{answer_in, panel_in};
pub use sum::Sum;
