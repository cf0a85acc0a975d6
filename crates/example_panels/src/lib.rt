// What the examples on panels share: their lines are read, and what is known of a panel is told by words and written in words.
#![tactic(auto)]

mod bytes;
mod characters;
mod example;
mod facts;
mod known;
mod rows;
mod segments;
mod telling;

pub use bytes::Bytes;
pub use example::{Begins, Example, Section};
pub use known::{write_known_panel, write_panel};
pub use telling::told;
