// The three parts under one roof: what the facts of a part are, how many values each has, and what an event does to a chip of that part, by the
// part alone (specs/); and which code and which numbers a part goes by.
#![tactic(auto)]

ghost use Rattle.std.specs.Prelude.{◌≡◌};
ghost use Rattle.parts.specs.Kind.{part_is};

use segment::Family;
use terms::Part;

#[derive(Clone, Copy)]
pub enum Kind {
    // PT6302.
    Character,
    // PT6312 or PT6315, each with its own numbers.
    Segment(Family),
}

// Whose numbers a part goes by.
impl From<Part> for Kind {
    ghost from_gives = { λ part kind. part ≡ part_is kind };

    fn from(part: Part) -> Kind {
        match part {
            Part::Pt6302 => Kind::Character,
            Part::Pt6312 => Kind::Segment(Family::Pt6312),
            Part::Pt6315 => Kind::Segment(Family::Pt6315),
        }
    }
}
