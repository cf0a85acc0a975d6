// What is told of a temperature field (paper 02, M-103): dark, then unknown, then what its five cells spell.
#![tactic(auto)]

mod telling;

pub use telling::tell;
