// What is kept of a recording between two packets, beside its panel: the unfinished bytes, the total and the standing refusal.
#![tactic(auto)]

mod unfinished;

use answers::Answer;
pub use unfinished::{Unfinished, count_of, held, joined, row_of, whole_of};

#[derive(Clone, Copy, Debug, PartialEq, Eq)]
pub struct Account {
    // The bytes of a record that is not whole yet.
    pub unfinished: Unfinished,
    // The number of all bytes so far.
    pub total: u32,
    // The refusal that stands, as it was answered, if there is one.
    pub kept: Option<Answer>,
}
