// The temperature that a field of a panel is known to show.
ghost use Rattle.character_knowledge.specs.View.{kview};
ghost use Rattle.terms.specs.Part.{part_of};
ghost use Rattle.field.specs.Said.{said};
ghost use Rattle.thermometer.specs.Answer.{Answers, Tells, TellsPart, TellsSound};

use character_knowledge::Knowledge;
use field::Field;
use field_told::tell;
use half_degrees::degrees;
use panel::Panel;
use terms::{Address, NoPart, Part, Place};

// A reading in degrees, or why there is none; or why there is no answer, and then it is unknown: number 1, for another part than PT6302, too, 2, or 11.
// It is no `Result`: paper 02 names a reading, no reading, dark, unknown and not a reading as the cases of one enum, and a refusal counts as unknown beside them.
#[derive(Clone, Copy)]
pub enum Answer {
    Reading(f32),
    NoReading,
    Dark,
    Unknown,
    NotAReading,
    NoPart(Place),
    OutOfRange(Place),
    NoField(Place),
}

// Of the field whose first cell is DCRAM `start`.
pub fn temperature(part: u8, panel: Panel, start: Address) -> Answer
    ensures { Tells (part_of part) panel start.0 result }
{
    match Part::try_from(part) {
        Ok(part) => of_part(part, panel, start),
        Err(NoPart(at)) => Answer::NoPart(at),
    }
}

fn of_part(part: Part, panel: Panel, start: Address) -> Answer
    ensures { TellsPart part panel start.0 result }
{
    match part {
        Part::Pt6302 => of_field(panel.character, start),
        Part::Pt6312 | Part::Pt6315 => Answer::NoPart(Place(0)),
    }
}

// DCRAM has 16 cells, so that no field starts behind 11.
fn of_field(k: Knowledge, start: Address) -> Answer
    ensures { TellsSound (kview k) start.0 result }
{
    if !character_ranges::sound(k) {
        return Answer::OutOfRange(Place(0));
    }
    if 11 < start.0 {
        return Answer::NoField(Place(0));
    }
    in_degrees(tell(k.control.lights, k.control.digits, k.dcram, start))
}

fn in_degrees(field: Field) -> Answer
    ensures { Answers 0 (said field) result }
{
    match field {
        Field::Reads(halves) => Answer::Reading(degrees(halves)),
        Field::NoReading => Answer::NoReading,
        Field::Dark => Answer::Dark,
        Field::Unknown => Answer::Unknown,
        Field::NotAReading => Answer::NotAReading,
    }
}
