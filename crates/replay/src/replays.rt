// The replay for all parts.
ghost use Rattle.terms.specs.Part.{part_of};
ghost use Rattle.replay.specs.Replay.{Replays};

use crate::tests::passing;
use answers::{Answer, ended};
use character_walks::character_walk;
use panel::Panel;
use parts::Kind;
use segment_walks::segment_walk;
use terms::Place;

// The answer, and the knowledge: after the recording where it is done, else as it was handed in.
#[derive(Clone, Copy)]
pub struct Replayed {
    pub answer: Answer,
    pub panel: Panel,
}

// Places are counted from the front again. The knowledge stands in one place from here to the end, and the walks get no more than their half of it, since each
// call that takes a panel would copy it.
pub fn replay(part: u8, panel: Panel, recording: &[u8], start: Place) -> Replayed
    ensures { Replays (part_of part) panel recording.now start.0 result }
{
    let mut known = panel;
    let part = match passing(part, &known, recording.len(), start) {
        Ok(part) => part,
        Err(refused) => {
            return Replayed {
                answer: Err(refused),
                panel: known,
            };
        }
    };
    let bytes = &recording[start.0..];
    let ending = match Kind::from(part) {
        Kind::Character => {
            let walked = character_walk(part, known.character, bytes);
            if let Ok(()) = walked.ending {
                known.character = walked.k;
            }
            walked.ending
        }
        Kind::Segment(family) => {
            let walked = segment_walk(part, family, known.segment, bytes);
            if let Ok(()) = walked.ending {
                known.segment = walked.k;
            }
            walked.ending
        }
    };
    Replayed {
        answer: ended(ending, start.0, recording.len()),
        panel: known,
    }
}
