// Whether a recording can carry an event: it is tested as its own record is.
#![tactic(auto)]

mod carried;

pub use carried::{Uncarried, carries};
