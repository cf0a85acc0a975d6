// The memory that is known of a panel, as the program prints it: a line for each digit, with `??` for what is not known.
#![tactic(auto)]

mod digits;

pub use digits::memory;
