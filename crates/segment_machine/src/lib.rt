// PT6312 and PT6315 as machines: code that does to a chip what the rules of `segment` say.
#![tactic(auto)]

mod bytes;
mod latches;
mod moves;

pub use moves::moved;
