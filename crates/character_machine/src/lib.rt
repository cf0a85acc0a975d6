// PT6302 as a machine: code that does to a chip what the rules of `character` say.
#![tactic(auto)]

mod bytes;
mod commanded;
mod moves;

pub use moves::moved;
