// Lines of what is known of cells, as text for people.
#![tactic(auto)]

mod rows;

pub use rows::{Names, line, lines};
