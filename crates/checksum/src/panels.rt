// What a replay gave, in the checksum.
ghost use Rattle.std.specs.Prelude.{◌≡◌};
ghost use Rattle.checksum.specs.Panels.{answer_sum, panel_sum};

use crate::sum::Sum;
use crate::{characters, segments};
use answers::{Answer, told_of};
use panel::Panel;
use segment::Family;
use terms::Part;

// Paper 01's number and the place.
pub fn answer_in(sum: Sum, answer: Answer) -> Sum
    ensures { result.0 ≡ answer_sum sum.0 answer }
{
    let told = told_of(answer);
    sum.take(told.number as u16).place(told.place)
}

// The facts of the part, in paper 01's order.
pub fn panel_in(sum: Sum, part: Part, panel: Panel) -> Sum
    ensures { result.0 ≡ panel_sum sum.0 part panel }
{
    match part {
        Part::Pt6302 => characters::all(sum, panel.character),
        Part::Pt6312 => segments::all(sum, Family::Pt6312, panel.segment),
        Part::Pt6315 => segments::all(sum, Family::Pt6315, panel.segment),
    }
}
