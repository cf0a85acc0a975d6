// What one event makes of a panel's knowledge.
ghost use Rattle.terms.specs.Part.{part_of};
ghost use Rattle.hearing.specs.Event.{Hears, HearsPart};

use crate::halves::after;
use hearing_answer::{Answer, Refused, answer_to};
use panel::Panel;
use terms::{Event, NoPart, Part};

// The answer, and the knowledge: after the event where it is done, else as it was handed in.
#[derive(Clone, Copy)]
pub struct Heard {
    pub answer: Answer,
    pub panel: Panel,
}

pub fn hear(part: u8, panel: Panel, event: Event) -> Heard
    ensures { Hears (part_of part) event panel result }
{
    match Part::try_from(part) {
        Ok(part) => heard_by(part, panel, event),
        Err(NoPart(at)) => Heard {
            answer: Err(Refused::NoPart(at)),
            panel,
        },
    }
}

fn heard_by(part: Part, panel: Panel, event: Event) -> Heard
    ensures { HearsPart part event panel result }
{
    let answer = answer_to(part, panel, event);
    if answer.is_ok() {
        Heard {
            answer,
            panel: after(part, panel, event),
        }
    } else {
        Heard { answer, panel }
    }
}
