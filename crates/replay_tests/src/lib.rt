// What a replay is refused for before its first record: tests 2, 4 and 3.
#![tactic(auto)]

ghost use Rattle.knowing.specs.Standing.{Sound};
ghost use Rattle.parts.specs.Facts.{range};
ghost use Rattle.panel.specs.View.{known_of};
ghost use Rattle.replay_tests.specs.Tests.{Tries};

use answers::Refused;
use panel::Panel;
use panel_ranges::in_range;
use terms::{Part, Place};

pub fn tried(part: Part, panel: &Panel, length: usize, start: Place) -> Result<(), Refused>
    ensures { Tries (Sound (range part) (known_of part panel.now)) length start.0 result }
{
    if !in_range(part, panel) {
        return Err(Refused::OutOfRange(Place(0)));
    }
    if 65535 < length {
        return Err(Refused::TooLong(Place(0)));
    }
    if length < start.0 {
        return Err(Refused::BeyondEnd(Place(0)));
    }
    Ok(())
}
