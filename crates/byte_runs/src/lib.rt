// Runs of bytes clocked in, record behind record: passed over, or taken for what they have in common. Each starts at a whole record of kind 03, and ends
// before the first that is none. `stored_runs` puts one into a row.
#![tactic(auto)]

mod passing;
mod sharing;
mod starting;

pub use sharing::Common;
pub use starting::ByteRun;
