// The replay by one who knows nothing: what the programs do.
ghost use Rattle.replay.specs.FromNothing.{FromNothing};

use crate::replays::{Replayed, replay};
use terms::Place;

pub fn from_nothing(part: u8, recording: &[u8]) -> Replayed
    ensures { FromNothing part recording.now result }
{
    replay(part, panel::nothing_known(), recording, Place(0))
}
