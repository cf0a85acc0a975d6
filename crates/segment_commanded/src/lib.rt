// PT6312's and PT6315's commands: what each does to a chip.
#![tactic(auto)]

mod commands;
mod positions;

pub use commands::commanded;
pub use positions::at;
