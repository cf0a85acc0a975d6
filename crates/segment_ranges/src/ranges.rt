// Number 2: whether every known value is in its fact's range, and every bit that is not known is stored as 0. What the part lacks is never tested.
ghost use Rattle.knowing.specs.Standing.{Within, Sound, unknown};
ghost use Rattle.segment.specs.Fact.{range};
ghost use Rattle.segment.specs.Family.{sizes};
ghost use Rattle.rules.specs.Tests.{Tests};
ghost use Rattle.fact.specs.View.{stands};
ghost use Rattle.key_codes.specs.Codes.{RowSound, Small};
ghost use Rattle.lamps.specs.Row.{LampsSound};
ghost use Rattle.segment_knowledge.specs.View.{kview, cview, points};
ghost use Rattle.segment_ranges.specs.Ranges.{SinglesSound, OwnSound};

use fact::{Single, within};
use key_codes::all_within;
use lamp_tests::{all_sound, lamps_sound};
use lamps::{EIGHT, FOUR};
use segment::Family;
use segment_knowledge::{Control, Knowledge, Pointing};

pub fn sound(family: Family, k: Knowledge) -> bool
    ensures { Tests result (Sound (range (sizes family)) (kview k)) }
{
    let cells = k.cells;
    let control = k.control;
    let keys = control.keys;
    rows_sound(family, cells, keys) & singles_sound(family, control)
}

// The sizes stand as numbers, so that the compiler knows how far each loop goes.
fn rows_sound(family: Family, cells: [u16; 36], keys: [u16; 4]) -> bool
    ensures { (Tests result (LampsSound 8 cells (sizes family).cells × RowSound keys (sizes family).keys 256)) × (Small keys) }
{
    match family {
        Family::Pt6312 => all_sound(&cells, 22, EIGHT) & all_within(&keys, 3, 256),
        Family::Pt6315 => all_sound(&cells, 36, EIGHT) & all_within(&keys, 4, 256),
    }
}

// The settings, the switches and the position.
fn singles_sound(family: Family, c: Control) -> bool
    ensures { Tests result (SinglesSound (sizes family) (cview (λ i k. unknown) c)) }
{
    let address = c.address;
    let data = c.data;
    let mode = c.mode;
    let switches = c.switches;
    let own = own_sound(family, address, data, mode, switches);
    let stepping = c.stepping;
    let dimming = c.dimming;
    let display = c.display;
    let set = within(stepping, 2) & within(dimming, 8) & within(display, 2);
    let led = c.led;
    let count = c.count;
    let position = c.position;
    let read = within(count, 5) & within(position, 4);
    own & set & lamps_sound(FOUR, led) & read
}

// The single facts whose ranges are the part's own. An address is one of the cells or invalid. PT6315 has no switches, and any byte stands there in range.
fn own_sound(
    family: Family,
    address: Pointing,
    data: Single<u8>,
    mode: Single<u8>,
    switches: Single<u8>,
) -> bool
    ensures { Tests result (OwnSound (sizes family) (points address) (stands «data») (stands mode) (stands switches)) }
{
    let low = within(switches, 16);
    match family {
        Family::Pt6312 => within(address, 23) & within(data, 4) & within(mode, 8) & low,
        Family::Pt6315 => within(address, 37) & within(data, 3) & within(mode, 9),
    }
}
