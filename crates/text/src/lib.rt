// Numbers and cells as text for people.
#![tactic(auto)]

mod numbers;

pub use numbers::{decimal, digit, shown};
