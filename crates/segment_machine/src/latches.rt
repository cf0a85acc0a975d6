// What latched keys and switches do to a chip.
ghost use Rattle.rules.specs.Rule.{gives};
ghost use Rattle.segment.specs.Family.{sizes};
ghost use Rattle.segment.specs.View.{By};
ghost use Rattle.segment.specs.Move.{keys_latched, switches_latched};

use crate::moves::unchanged;
use segment::{Family, Moved, NONE, Segment};

// The fourth key byte is stored where the part has one.
pub fn keys_latched(family: Family, mut chip: Segment, k0: u8, k1: u8, k2: u8, k3: u8) -> Moved
    ensures { By (gives (keys_latched (sizes family) k0 k1 k2 k3)) chip result }
{
    match family {
        Family::Pt6312 => {}
        Family::Pt6315 => chip.keys[3] = k3,
    }
    chip.keys[2] = k2;
    chip.keys[1] = k1;
    chip.keys[0] = k0;
    Moved { chip, any: NONE }
}

pub fn switches_latched(family: Family, mut chip: Segment, value: u8) -> Moved
    ensures { By (gives (switches_latched (sizes family) value)) chip result }
{
    match family {
        Family::Pt6312 => {
            chip.switches = value % 16;
            Moved { chip, any: NONE }
        }
        Family::Pt6315 => unchanged(chip),
    }
}
