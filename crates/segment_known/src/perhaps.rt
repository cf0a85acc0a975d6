// What is left of a knowledge where a byte clocked in may have been a command, or data, or nothing: a fact that it would set stays known where it has that value already, and all others are as they were.
ghost use Rattle.std.specs.Prelude.{◌≡◌, true};
ghost use Rattle.rules.specs.Rule.{look};
ghost use Rattle.knowing.specs.Standing.{known, unknown};
ghost use Rattle.knowing.specs.Know.{join};
ghost use Rattle.fact.specs.View.{stands};
ghost use Rattle.segment.specs.Fact.{position};
ghost use Rattle.segment.specs.Family.{sizes};
ghost use Rattle.segment.specs.Move.{byte_in};
ghost use Rattle.segment_steps.specs.Step.{Steps};
ghost use Rattle.segment_known.specs.Anywhere.{Quiet, StaysModed, Unmoved};

use crate::bytes::data_in;
use crate::commanded::display_in;
use changes::{Change, all_agree, loosened};
use fact::{Single, both};
use lamps::{FOUR, both_lamps, put_byte};
use segment::{Command, Family};
use segment_first_byte::command_of;
use segment_knowledge::{Control, OFF, Pointing, WRITE_DISPLAY, WRITE_LED};
use segment_steps::Step;

pub fn perhaps_in(family: Family, c: Control, byte: u8) -> Step
    requires { stands c.position ≡ unknown }
    ensures { Steps (sizes family) (look position (byte_in (sizes family) byte)) c result }
{
    let next = data_in(family, c, byte);
    let to = next.address;
    let stored = next.change;
    let from = c.address;
    let mut address = both(from, to);
    let mut led = both_lamps(c.led, next.led);
    let mut change = loosened(stored);
    let mut data = c.data;
    let mut stepping = c.stepping;
    let mut mode = c.mode;
    let mut dimming = c.dimming;
    let mut display = c.display;
    let mut count = c.count;
    let command = command_of(family, byte);
    match command {
        Command::Mode(code) => {
            let off = display_in(mode, code, display);
            display = both(display, off);
            mode = perhaps(mode, code);
        }
        Command::Test => {
            address = Pointing::Unknown;
            data = Single::Unknown;
            stepping = Single::Unknown;
            mode = Single::Unknown;
            dimming = Single::Unknown;
            display = Single::Unknown;
            led = 0;
            count = Single::Unknown;
            change = Change::Forget;
        }
        Command::Setting(kind, step) => {
            data = perhaps(data, u8::from(kind));
            stepping = perhaps(stepping, u8::from(step));
            count = perhaps(count, 0);
        }
        Command::AnySetting(step) => {
            data = Single::Unknown;
            stepping = perhaps(stepping, u8::from(step));
            count = perhaps(count, 0);
        }
        Command::Control(level, shown) => {
            dimming = perhaps(dimming, level);
            display = perhaps(display, u8::from(shown));
        }
        Command::Start(start) => address = both(address, Pointing::Known(start)),
    }
    Step {
        control: Control {
            address,
            data,
            stepping,
            mode,
            dimming,
            display,
            led,
            count,
            ..c
        },
        change,
    }
}

// The fact may have become v.
fn perhaps(s: Single<u8>, v: u8) -> Single<u8>
    ensures { stands result ≡ join (stands s) (known v) }
{
    both(s, Single::Known(v))
}

// At an unknown position this byte changes nothing that is known: as data it leaves all as it is, and what it would set as a command is unknown or has that value already. A data setting, and what may
// forget more, counts as one that changes something.
pub fn unmoved(family: Family, c: Control, cells: &[u16], byte: u8) -> bool
    requires { stands c.position ≡ unknown }
    ensures { result ≡ true → Unmoved family byte c cells.now }
{
    if !quiet(family, c, cells, byte) {
        return false;
    }
    let display = c.display;
    let command = command_of(family, byte);
    match command {
        Command::Mode(code) => {
            let mode = c.mode;
            stays_moded(mode, code, display)
        }
        Command::Test | Command::Setting(_, _) | Command::AnySetting(_) => false,
        Command::Control(level, shown) => {
            stays(c.dimming, level) && stays(display, u8::from(shown))
        }
        Command::Start(_) => matches!(c.address, Pointing::Unknown),
    }
}

// As data the byte goes to a cell, and whichever it is, the cells have what it says; or to the LED, which has that; or nowhere.
fn quiet(family: Family, c: Control, cells: &[u16], byte: u8) -> bool
    ensures { result ≡ true → Quiet family byte c cells.now }
{
    let data = c.data;
    let Single::Known(to) = data else {
        return false;
    };
    match to {
        WRITE_DISPLAY => {
            let address = c.address;
            let Pointing::Unknown = address else {
                return false;
            };
            all_agree(cells, byte)
        }
        WRITE_LED => {
            let led = c.led;
            both_lamps(led, put_byte(FOUR, led, byte)) == led
        }
        _ => true,
    }
}

// A mode command changes nothing: the mode is that one, or the mode is unknown and so is the display, or it is off.
fn stays_moded(mode: Single<u8>, code: u8, display: Single<u8>) -> bool
    ensures { result ≡ true → StaysModed (stands mode) code (stands display) }
{
    match mode {
        Single::Known(old) => old == code,
        Single::Unknown => stays(display, OFF),
    }
}

// The fact is unknown, or it is v.
fn stays(s: Single<u8>, v: u8) -> bool
    ensures { result ≡ true → stands s ≡ join (stands s) (known v) }
{
    match s {
        Single::Known(w) => w == v,
        Single::Unknown => true,
    }
}
