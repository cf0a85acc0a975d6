// The tail finder: the part of a recording behind its last gap.
#![tactic(auto)]

mod find;
mod gaps;
mod part;

pub use find::find_tail;
pub use gaps::Found;
pub use part::tail;
