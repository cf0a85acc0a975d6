// The temperature of a PT6302 panel (paper 02, M-103): a reading, exactly, or why there is none, and never a false nought.
#![tactic(auto)]

mod temperatures;

pub use temperatures::{Answer, temperature};
