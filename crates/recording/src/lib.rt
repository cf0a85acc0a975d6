// The recording: what its records are, what a record is read as, and what a body and a part allow. The reading itself, as code, is the crate `one_record`.
#![tactic(auto)]

mod bodies;
mod kinds;

pub use bodies::{bits_allowed, body_of, fourth_allowed, switches_allowed};
pub use kinds::{has_keys, has_switches};
use terms::{Event, Place};

// A record that was read: its event, and how many bytes it has.
#[derive(Clone, Copy, Debug, PartialEq, Eq)]
pub struct Record {
    pub event: Event,
    pub length: usize,
}

// Why there is no record: numbers 5, 6, 7 and 8.
#[derive(Clone, Copy, Debug, PartialEq, Eq)]
pub enum Refusal {
    // The kind is not listed.
    Unlisted,
    // The kind is not of this part.
    Foreign,
    // The body is cut short.
    CutShort,
    // A body value is not allowed.
    Forbidden,
}

// Where a walk stops before the end: at a record that is none, with the place that its refusal points at.
#[derive(Clone, Copy, Debug, PartialEq, Eq)]
pub struct Stop {
    pub refusal: Refusal,
    pub at: Place,
}
