// The walk over the records of a recording, through the knowledge of a panel of any part.
ghost use Rattle.terms.specs.declared.Part.TheVariants.{Pt6302};
ghost use Rattle.packets.specs.Walks.{Walks, SegmentWalks};

use character_walks::character_walk;
use panel::{Panel, with_character, with_segment};
use parts::Kind;
use segment::Family;
use segment_walks::segment_walk;
use terms::Part;
use walks::Walked;

pub fn panel_walk(part: Part, panel: Panel, bytes: &[u8]) -> Walked<Panel>
    ensures { Walks part panel bytes.now result }
{
    match Kind::from(part) {
        Kind::Character => character_walked(panel, bytes),
        Kind::Segment(family) => segment_walked(part, family, panel, bytes),
    }
}

fn segment_walked(part: Part, family: Family, panel: Panel, bytes: &[u8]) -> Walked<Panel>
    ensures { SegmentWalks part family panel bytes.now result }
{
    let k = panel.segment;
    let walked = segment_walk(part, family, k, bytes);
    let ending = walked.ending;
    let segment = walked.k;
    Walked {
        ending,
        k: with_segment(panel, segment),
    }
}

fn character_walked(panel: Panel, bytes: &[u8]) -> Walked<Panel>
    ensures { Walks Pt6302 panel bytes.now result }
{
    let k = panel.character;
    let walked = character_walk(Part::Pt6302, k, bytes);
    let ending = walked.ending;
    let character = walked.k;
    Walked {
        ending,
        k: with_character(panel, character),
    }
}
