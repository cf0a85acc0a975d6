// What the service calls: one panel's state, which is lent, and changed where it stands.
#![tactic(auto)]

mod lent;

pub use feed::{Account, Answer, Feed, Refused, Unfinished, opened};
pub use lent::{close, take};
