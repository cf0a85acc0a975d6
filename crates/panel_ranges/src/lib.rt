// Number 2 for a panel of any part.
#![tactic(auto)]

ghost use Rattle.knowing.specs.Standing.{Sound};
ghost use Rattle.parts.specs.Facts.{range};
ghost use Rattle.rules.specs.Tests.{Tests};
ghost use Rattle.panel.specs.View.{known_of};

use panel::Panel;
use segment::Family;
use terms::Part;

// Every known value is in its fact's range. The panel is lent, so that only the half that is tested is copied.
pub fn in_range(part: Part, panel: &Panel) -> bool
    ensures { Tests result (Sound (range part) (known_of part panel.now)) }
{
    match part {
        Part::Pt6302 => character_ranges::sound(panel.character),
        Part::Pt6312 => segment_ranges::sound(Family::Pt6312, panel.segment),
        Part::Pt6315 => segment_ranges::sound(Family::Pt6315, panel.segment),
    }
}
