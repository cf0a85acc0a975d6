// A single fact, known or unknown, as a value. What is known beside memory is made of these.
#![tactic(auto)]

ghost use Rattle.std.specs.Prelude.{◌≡◌};
ghost use Rattle.knowing.specs.Standing.{Within};
ghost use Rattle.knowing.specs.Know.{join};
ghost use Rattle.knowing.specs.Holds.{is_known};
ghost use Rattle.rules.specs.Tests.{Tests};
ghost use Rattle.fact.specs.View.{standing};

use terms::Value;

// Known, with its value, or unknown. It is no `Option`: every event matches what is known by these names, as the paper of rules has it.
#[derive(Clone, Copy, Debug, PartialEq, Eq)]
pub enum Single<T> {
    Known(T),
    Unknown,
}

// What two single facts have in common.
#[tactic(auto, unfolding(knowing::specs::Know::join, knowing::specs::Know::kept_if))]
pub fn both<T: Value>(a: Single<T>, b: Single<T>) -> Single<T>
    ensures { standing T.number result ≡ join (standing T.number a) (standing T.number b) }
{
    match (a, b) {
        (Single::Known(v), Single::Known(w)) if v.is(w) => Single::Known(v),
        _ => Single::Unknown,
    }
}

// The fact is known to be v.
pub fn is_known<T: Value>(s: Single<T>, v: T) -> bool
    ensures { result ≡ is_known (standing T.number s) (T.number v) }
{
    match s {
        Single::Known(w) => w.is(v),
        Single::Unknown => false,
    }
}

// What is known is below the limit. Whatever it is, it has room among the values of its type.
pub fn within<T: Value>(s: Single<T>, limit: u16) -> bool
    ensures { (Tests result (Within limit (standing T.number s))) × (Within T.room (standing T.number s)) }
{
    match s {
        Single::Known(v) => v.as_number() < limit,
        Single::Unknown => true,
    }
}
