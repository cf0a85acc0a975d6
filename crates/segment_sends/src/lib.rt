// The byte that a PT6312 or PT6315 sends next, by the rule of `segment`.
#![tactic(auto)]

ghost use Rattle.std.specs.Prelude.{◌≡◌, ◌<◌, get_or};
ghost use Rattle.segment.specs.Family.{sizes};
ghost use Rattle.segment.specs.Value.{data_mode_of};
ghost use Rattle.segment.specs.Sent.{Sends, sent, open_sent, key_sent, switches_sent};

use segment::{Data, Family, Position, Segment, Sent};

// The byte that the chip sends next, if it drives the line.
pub fn sent_next(family: Family, chip: Segment) -> Sent
    ensures { Sends (sent (sizes family)) chip result }
{
    let position = chip.position;
    match position {
        Position::Open => open_sent(family, chip),
        Position::Idle => Sent::NotDriven,
        Position::First => Sent::NotDriven,
        Position::Ignoring => Sent::NotDriven,
    }
}

fn open_sent(family: Family, chip: Segment) -> Sent
    ensures { Sends (open_sent (sizes family) (data_mode_of chip.«data»)) chip result }
{
    let data = chip.data;
    match data {
        Data::ReadKeys => key_sent(family, chip),
        Data::ReadSwitches => switches_sent(chip),
        Data::WriteDisplay => Sent::NotDriven,
        Data::WriteLed => Sent::NotDriven,
    }
}

fn key_sent(family: Family, chip: Segment) -> Sent
    ensures { Sends (key_sent (sizes family) chip.count) chip result }
{
    let sizes = family.sizes();
    let keys = chip.keys;
    if chip.count < sizes.keys {
        Sent::Byte(key_at(keys, chip.count))
    } else {
        Sent::NotDriven
    }
}

fn key_at(keys: [u8; 4], number: u8) -> u8
    requires { number < 4 }
    ensures { result ≡ get_or keys number 0 }
{
    let i = number as usize;
    keys[i]
}

fn switches_sent(chip: Segment) -> Sent
    ensures { Sends (switches_sent chip.count) chip result }
{
    if chip.count == 0 {
        Sent::Byte(chip.switches)
    } else {
        Sent::NotDriven
    }
}
