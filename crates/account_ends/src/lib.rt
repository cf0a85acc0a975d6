// What becomes of the account at the end of a packet's records: the answer, the unfinished bytes, the total and the standing refusal.
#![tactic(auto)]

mod ended;

pub use ended::{Ended, halts, settled, went_on};
