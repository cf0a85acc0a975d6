// A recording that comes in packets: each is taken through what is kept of the panel.
#![tactic(auto)]

mod packets;
mod records;
mod walked;

pub use feed::{Account, Answer, Feed, Refused, Unfinished, closed, opened};
pub use packets::taken;
pub use records::Taken;
