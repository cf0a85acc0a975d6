// What each event makes of a knowledge.
ghost use Rattle.rules.specs.Rule.{gives};
ghost use Rattle.segment.specs.Family.{sizes};
ghost use Rattle.segment.specs.Move.{powered, move};
ghost use Rattle.segment_knowledge.specs.View.{Knows};
ghost use Rattle.segment_steps.specs.Step.{Steps, Forgets};

use crate::bytes::byte_in;
use crate::everyday::{falls, rises};
use crate::latches::{keys_latched, switches_latched};
use crate::reads::byte_out;
use applying::apply;
use fact::Single;
use lamps::{EIGHT, FOUR, put_byte};
use segment::{Family, Pointer};
use segment_knowledge::{Control, IDLE, INCREMENT, Knowledge, OFF, Pointing, WRITE_DISPLAY};
use segment_steps::{Step, forgotten, kept, lost};
use terms::{Address, Event};

// What is known beside the memory after an event, and what happens to the memory.
fn step(family: Family, mut c: Control, event: Event) -> Step
    ensures { Steps (sizes family) (move (sizes family) event) c result }
{
    match event {
        Event::Power => {
            c = at_power(family, c);
            return forgotten(c);
        }
        Event::ByteIn(byte) => {
            return byte_in(family, c, byte);
        }
        Event::Gap => {
            return lost(family, c);
        }
        Event::Falls => c = falls(c),
        Event::Rises => c = rises(c),
        Event::Unfinished(_) => c = rises(c),
        Event::Keys(k0, k1, k2, k3) => c = keys_latched(family, c, k0, k1, k2, k3),
        Event::Switches(value) => c = switches_latched(family, c, value),
        Event::ByteOut => c = byte_out(family, c),
    }
    kept(c)
}

fn at_power(family: Family, c: Control) -> Control
    ensures { Forgets (sizes family) (gives (powered (sizes family))) c result }
{
    let sizes = family.sizes();
    let old = c.led;
    let led = put_byte(FOUR, old, sizes.led);
    Control {
        address: Pointing::Known(Pointer::At(Address(0))),
        data: Single::Known(WRITE_DISPLAY),
        stepping: Single::Known(INCREMENT),
        mode: Single::Known(sizes.top),
        dimming: Single::Known(0),
        display: Single::Known(OFF),
        led,
        keys: [256; 4],
        switches: Single::Unknown,
        count: Single::Known(0),
        position: Single::Known(IDLE),
    }
}

// An event taken through a knowledge, whose cells are changed where they stand.
pub fn taken(family: Family, c: Control, cells: &mut [u16; 36], event: Event) -> Control
    ensures { Knows (sizes family) (move (sizes family) event) (record { cells = cells.old; control = c }) (record { cells = cells.new; control = result }) }
{
    let next = step(family, c, event);
    apply(cells, EIGHT, next.change);
    next.control
}

// The knowledge after an event.
pub fn moved(family: Family, k: Knowledge, event: Event) -> Knowledge
    ensures { Knows (sizes family) (move (sizes family) event) k result }
{
    let Knowledge { mut cells, control } = k;
    let control = taken(family, control, &mut cells, event);
    Knowledge { cells, control }
}
