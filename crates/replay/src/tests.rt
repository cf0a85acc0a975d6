// What a call is refused for before its first record.
ghost use Rattle.terms.specs.Part.{part_of};
ghost use Rattle.replay.specs.Passing.{Passes};

use answers::Refused;
use panel::Panel;
use replay_tests::tried;
use terms::{Part, Place};

// The part that the byte names, where tests 1, 2, 4 and 3 let the call pass, in turn: of the panel, and of the recording's length.
pub fn passing(part: u8, panel: &Panel, length: usize, start: Place) -> Result<Part, Refused>
    ensures { Passes (part_of part) panel.now length start.0 result }
{
    let part = Part::try_from(part)?;
    tried(part, panel, length, start)?;
    Ok(part)
}
