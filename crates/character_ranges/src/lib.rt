// Number 2 for PT6302: whether what is known of a panel is in range.
#![tactic(auto)]

mod ranges;

pub use ranges::sound;
