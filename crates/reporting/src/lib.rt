// The report of the byte to be sent next, for all parts.
#![tactic(auto)]

mod reports;

pub use reports::{NoReport, Report, next_sent};
