// The cells that differ, as runs around the ring: how they lie, and writing them.
#![tactic(auto)]

mod around;
mod looking;
mod ring;

pub use ring::Ring;
