// Known or unknown bit by bit, as the memory, the LED and the port are: a code of two bytes for each byte, with the values below and above them the
// marks of the bits that are known. A bit that is not known is stored as 0, so that the code 0 knows nothing.
#![tactic(auto)]

mod code;

pub use code::{EIGHT, FOUR, SEVEN, TWO, both_lamps, code_of, cut, holds, meet_code, put_byte};
