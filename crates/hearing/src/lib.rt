// What one event makes of a panel's knowledge, for all parts.
#![tactic(auto)]

mod events;
mod halves;

pub use events::{Heard, hear};
pub use hearing_answer::{Answer, Refused};
