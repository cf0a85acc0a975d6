// The report of the byte to be sent next, over what is known of a PT6312 or PT6315 panel.
#![tactic(auto)]

mod in_range;
mod sent;

pub use in_range::InRange;
pub use sendings::Sending;
