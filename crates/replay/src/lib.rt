// The replay: knowledge in, recording in, knowledge out, or a refusal that points at its byte, with the knowledge as it was handed in.
#![tactic(auto)]

mod nothing;
mod replays;
mod tests;

pub use answers::{Answer, Refused};
pub use nothing::from_nothing;
pub use replays::{Replayed, replay};
