// What an event does to a row of codes: a small value, and the loops by which codes lose what is no longer known. `applying` makes a change where the row stands.
#![tactic(auto)]

mod rows;

ghost use Rattle.std.specs.Prelude.{◌≡◌};
ghost use Rattle.changes.specs.Change.{loose};

pub use rows::{all_agree, forget, meet, meet_one};
use terms::Address;

// A small value: the row itself is changed once, where it stands.
#[derive(Clone, Copy)]
pub enum Change {
    // Every code stays.
    Keep,
    // One code becomes known, every bit of it.
    Put(Address, u8),
    // A byte may have gone to any of these codes: from the first on, one in so many, so many of them. Each keeps the bits that it has in common with the byte.
    Meet(Address, u8, u8, u8),
    // Every code becomes unknown.
    Forget,
}

// What a change that may have happened, or not, makes certain.
pub fn loosened(change: Change) -> Change
    ensures { result ≡ loose change }
{
    match change {
        Change::Keep => Change::Keep,
        Change::Put(cell, byte) => Change::Meet(cell, 1, 1, byte),
        Change::Meet(from, by, count, byte) => Change::Meet(from, by, count, byte),
        Change::Forget => Change::Forget,
    }
}
