// The facts of a PT6312 or PT6315 panel in the checksum.
ghost use Rattle.std.specs.Prelude.{◌≡◌};
ghost use Rattle.checksum.specs.Sum.{taken};
ghost use Rattle.checksum.specs.Segments.{address_code, switch_sum, segment_sum};

use crate::sum::Sum;
use fact::Single;
use segment::{Family, Pointer};
use segment_knowledge::{Knowledge, Pointing};

pub fn all(sum: Sum, family: Family, k: Knowledge) -> Sum
    ensures { result.0 ≡ segment_sum sum.0 family k }
{
    let sizes = family.sizes();
    let memory = k.cells;
    let stored = sum.first(sizes.cells, &memory);
    let c = k.control;
    let to = c.address;
    let addressed = address(stored, to);
    let data = c.data;
    let stepping = c.stepping;
    let mode = c.mode;
    let dimming = c.dimming;
    let display = c.display;
    let led = c.led;
    let set = addressed
        .fact(data)
        .fact(stepping)
        .fact(mode)
        .fact(dimming)
        .fact(display)
        .take(led);
    let pressed = c.keys;
    let latched = set.first(sizes.keys, &pressed);
    let switches = c.switches;
    let switched = switches_in(latched, family, switches);
    let count = c.count;
    let position = c.position;
    switched.fact(count).fact(position)
}

fn address(sum: Sum, fact: Pointing) -> Sum
    ensures { result.0 ≡ taken sum.0 (address_code fact) }
{
    sum.take(code(fact))
}

// An invalid address counts as 255.
fn code(fact: Pointing) -> u16
    ensures { result ≡ address_code fact }
{
    match fact {
        Pointing::Known(Pointer::At(cell)) => cell.0 as u16,
        Pointing::Known(Pointer::Invalid) => 255,
        Pointing::Unknown => 256,
    }
}

fn switches_in(sum: Sum, family: Family, fact: Single<u8>) -> Sum
    ensures { result.0 ≡ switch_sum sum.0 family fact }
{
    match family {
        Family::Pt6312 => sum.fact(fact),
        Family::Pt6315 => sum,
    }
}
