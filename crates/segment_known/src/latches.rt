// What latched keys and switches make of a knowledge.
ghost use Rattle.rules.specs.Rule.{gives};
ghost use Rattle.segment.specs.Family.{sizes};
ghost use Rattle.segment.specs.Move.{keys_latched, switches_latched};
ghost use Rattle.segment_steps.specs.Step.{Keeps};

use fact::Single;
use segment::Family;
use segment_knowledge::Control;

// The fourth key byte is stored where the part has one.
pub fn keys_latched(family: Family, mut c: Control, k0: u8, k1: u8, k2: u8, k3: u8) -> Control
    ensures { Keeps (sizes family) (gives (keys_latched (sizes family) k0 k1 k2 k3)) c result }
{
    c.keys[0] = k0 as u16;
    c.keys[1] = k1 as u16;
    c.keys[2] = k2 as u16;
    if let Family::Pt6315 = family {
        c.keys[3] = k3 as u16;
    }
    c
}

pub fn switches_latched(family: Family, c: Control, value: u8) -> Control
    ensures { Keeps (sizes family) (gives (switches_latched (sizes family) value)) c result }
{
    match family {
        Family::Pt6312 => Control {
            switches: Single::Known(value % 16),
            ..c
        },
        Family::Pt6315 => c,
    }
}
