// Number 2 for PT6312 and PT6315: whether what is known of a panel is in range.
#![tactic(auto)]

mod ranges;

pub use ranges::sound;
