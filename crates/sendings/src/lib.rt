// The report of the byte to be sent next, as a value.
#![tactic(auto)]

use fact::Single;
use segment::Sent;

// Known, where all chips that fit send one byte, or none of them drives the line; unknown, where they do not agree.
pub type Sending = Single<Sent>;
