// What a call that reads a recording answers.
#![tactic(auto)]

ghost use Rattle.std.specs.Prelude.{◌≡◌, Err};
ghost use Rattle.answers.specs.declared.Refused.TheVariants.{NoPart};
ghost use Rattle.answers.specs.Answer.{refused_as, number, place};
ghost use Rattle.answers.specs.Ended.{Inside, ended_as};

use recording::{Refusal, Stop};
use terms::{NoPart, Place};

// Done, with the recording's length, or why not.
pub type Answer = Result<Place, Refused>;

// Why not: numbers 1 to 8, each at its place.
#[derive(Clone, Copy, Debug, PartialEq, Eq)]
pub enum Refused {
    NoPart(Place),
    OutOfRange(Place),
    BeyondEnd(Place),
    TooLong(Place),
    Unlisted(Place),
    Foreign(Place),
    CutShort(Place),
    Forbidden(Place),
}

impl Refused {
    // A record's refusal, at the place that it points at.
    pub fn of(refusal: Refusal, at: Place) -> Refused
        ensures { Err result ≡ refused_as refusal at }
    {
        match refusal {
            Refusal::Unlisted => Refused::Unlisted(at),
            Refusal::Foreign => Refused::Foreign(at),
            Refusal::CutShort => Refused::CutShort(at),
            Refusal::Forbidden => Refused::Forbidden(at),
        }
    }
}

impl From<NoPart> for Refused {
    ghost from_gives = { λ no_part refused. refused ≡ NoPart no_part.0 };

    fn from(no_part: NoPart) -> Refused {
        Refused::NoPart(no_part.0)
    }
}

// The answer where the records end: done at the recording's length, or refused at the place that the refusal points at. The records began at the
// place `from`, and places are counted from the recording's front.
pub fn ended(ending: Result<(), Stop>, from: usize, length: usize) -> Answer
    requires { Inside ending from length }
    ensures { result ≡ ended_as ending from length }
{
    match ending {
        Ok(()) => Ok(Place(length)),
        Err(Stop { refusal, at }) => Err(Refused::of(refusal, Place(from + at.0))),
    }
}

// Paper 01's number of an answer, and its place.
#[derive(Clone, Copy, Debug, PartialEq, Eq)]
pub struct Told {
    pub number: u8,
    pub place: Place,
}

pub fn told_of(answer: Answer) -> Told
    ensures { (result.number ≡ number answer) × (result.place.0 ≡ place answer) }
{
    let (number, place) = match answer {
        Ok(at) => (0, at),
        Err(Refused::NoPart(at)) => (1, at),
        Err(Refused::OutOfRange(at)) => (2, at),
        Err(Refused::BeyondEnd(at)) => (3, at),
        Err(Refused::TooLong(at)) => (4, at),
        Err(Refused::Unlisted(at)) => (5, at),
        Err(Refused::Foreign(at)) => (6, at),
        Err(Refused::CutShort(at)) => (7, at),
        Err(Refused::Forbidden(at)) => (8, at),
    };
    Told { number, place }
}
