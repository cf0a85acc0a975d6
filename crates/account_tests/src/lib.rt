// What is tested of a fair account before a packet's records, and what closing says of it: the unfinished bytes, the total and the standing refusal, without the panel.
#![tactic(auto)]

mod close;
mod tests;

pub use close::closing;
pub use tests::admitted;
