// What an event is answered: done, or why not.
#![tactic(auto)]

ghost use Rattle.std.specs.Prelude.{◌≡◌};
ghost use Rattle.hearing_answer.specs.Answer.{refused_as, Answers};

use carrying::{Uncarried, carries};
use panel::Panel;
use panel_ranges::in_range;
use terms::{Event, Part, Place};

// Why an event is not heard: number 1, 2, 6 or 8 at its place.
#[derive(Clone, Copy, Debug, PartialEq, Eq)]
pub enum Refused {
    NoPart(Place),
    OutOfRange(Place),
    // The part has no such event.
    Foreign(Place),
    // A value that the event carries is not allowed.
    Forbidden(Place),
}

pub type Answer = Result<(), Refused>;

// One event is no recording, so the place is 0.
impl From<Uncarried> for Refused {
    ghost from_gives = { λ u r. r ≡ refused_as u };

    fn from(uncarried: Uncarried) -> Refused {
        match uncarried {
            Uncarried::Foreign => Refused::Foreign(Place(0)),
            Uncarried::Forbidden => Refused::Forbidden(Place(0)),
        }
    }
}

// Test 2, and then what no recording can carry is refused as its record is.
pub fn answer_to(part: Part, panel: Panel, event: Event) -> Answer
    ensures { Answers part event panel result }
{
    if !in_range(part, &panel) {
        return Err(Refused::OutOfRange(Place(0)));
    }
    carries(part, event)?;
    Ok(())
}
