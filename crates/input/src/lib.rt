// A stream, as standard input is one, read so that a part of it never passes for the whole, and what a program says where it fails.
#![tactic(auto)]

mod failing;
mod program;
mod reading;
mod stream;

pub use failing::failed;
pub use program::{run_on, status_of};
pub use read_answer::Input;
pub use reading::read_input;
pub use stream::Stream;
