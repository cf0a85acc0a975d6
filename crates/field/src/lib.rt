// The temperature field of a PT6302 panel (paper 02, M-103): what five cells in a row spell. What is told of a field of which not all is
// known stands in specs/, for the crates above.
#![tactic(auto)]

mod spelling;

pub use spelling::{Field, Five, spelled};
