// What an event makes of the half of a panel's knowledge that speaks of the part.
ghost use Rattle.hearing.specs.Event.{After};

use panel::{Panel, with_character, with_segment};
use parts::Kind;
use terms::{Event, Part};

pub fn after(part: Part, panel: Panel, event: Event) -> Panel
    ensures { After part event panel result }
{
    match Kind::from(part) {
        Kind::Character => {
            let k = panel.character;
            with_character(panel, character_known::moved(k, event))
        }
        Kind::Segment(family) => {
            let k = panel.segment;
            with_segment(panel, segment_known::moved(family, k, event))
        }
    }
}
