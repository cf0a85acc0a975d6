// PT6302's RAMs: what a byte that goes to one does to a chip.
#![tactic(auto)]

mod rams;

pub use rams::{to_draw, to_mark, to_show};
