// What a first byte makes of a knowledge.
ghost use Rattle.std.specs.Prelude.{◌≡◌, ◌≤◌};
ghost use Rattle.rules.specs.Rule.{gives, look};
ghost use Rattle.segment.specs.Command.{command_of};
ghost use Rattle.segment.specs.Fact.{mode};
ghost use Rattle.segment.specs.Family.{sizes};
ghost use Rattle.segment.specs.Move.{to_mode, tested, commanded};
ghost use Rattle.segment_steps.specs.Step.{Steps, Keeps, Forgets};
ghost use Rattle.fact.specs.View.{stands};
ghost use Rattle.segment_known.specs.Ways.{display_in};

use fact::{Single, both};
use segment::{Command, Data, Display, Family, Pointer, Stepping};
use segment_first_byte::command_of;
use segment_knowledge::{Control, IGNORING, OFF, OPEN, Pointing};
use segment_steps::{Step, forgotten, kept};

pub fn first_in(family: Family, mut c: Control, byte: u8) -> Step
    ensures { Steps (sizes family) (commanded (command_of (sizes family) byte)) c result }
{
    let command = command_of(family, byte);
    match command {
        Command::Test => {
            c = in_test(family, c);
            return forgotten(c);
        }
        Command::Mode(code) => c = to_mode(family, c, code),
        Command::Setting(data, stepping) => c = data_set(family, c, data, stepping),
        Command::AnySetting(stepping) => c = stepping_set(family, c, stepping),
        Command::Control(dimming, display) => c = display_set(family, c, dimming, display),
        Command::Start(address) => c = address_set(family, c, address),
    }
    kept(c)
}

pub fn data_set(family: Family, c: Control, data: Data, stepping: Stepping) -> Control
    ensures { Keeps (sizes family) (commanded (Command.Setting «data» stepping)) c result }
{
    Control {
        data: Single::Known(data.into()),
        stepping: Single::Known(stepping.into()),
        count: Single::Known(0),
        position: Single::Known(OPEN),
        ..c
    }
}

// The data mode is anything.
pub fn stepping_set(family: Family, c: Control, stepping: Stepping) -> Control
    ensures { Keeps (sizes family) (commanded (Command.AnySetting stepping)) c result }
{
    Control {
        data: Single::Unknown,
        stepping: Single::Known(stepping.into()),
        count: Single::Known(0),
        position: Single::Known(OPEN),
        ..c
    }
}

pub fn display_set(family: Family, c: Control, dimming: u8, display: Display) -> Control
    ensures { Keeps (sizes family) (commanded (Command.Control dimming display)) c result }
{
    Control {
        dimming: Single::Known(dimming),
        display: Single::Known(display.into()),
        position: Single::Known(IGNORING),
        ..c
    }
}

pub fn address_set(family: Family, c: Control, to: Pointer) -> Control
    ensures { Keeps (sizes family) (commanded (Command.Start to)) c result }
{
    Control {
        address: Pointing::Known(to),
        position: Single::Known(OPEN),
        ..c
    }
}

// An unknown mode may be the one that the byte names, or any other.
pub fn to_mode(family: Family, c: Control, code: u8) -> Control
    requires { code ≤ (sizes family).top }
    ensures { Keeps (sizes family) (look mode (to_mode code)) c result }
{
    let old = c.mode;
    let shown = c.display;
    let display = display_in(old, code, shown);
    Control {
        mode: Single::Known(code),
        display,
        position: Single::Known(IGNORING),
        ..c
    }
}

// What is known of the display when a mode command has come: another mode turns it off.
pub fn display_in(old: Single<u8>, code: u8, shown: Single<u8>) -> Single<u8>
    ensures { stands result ≡ display_in (stands old) code (stands shown) }
{
    match old {
        Single::Known(mode) => {
            if mode == code {
                shown
            } else {
                Single::Known(OFF)
            }
        }
        Single::Unknown => both(shown, Single::Known(OFF)),
    }
}

pub fn in_test(family: Family, c: Control) -> Control
    ensures { Forgets (sizes family) (gives tested) c result }
{
    Control {
        address: Pointing::Unknown,
        data: Single::Unknown,
        stepping: Single::Unknown,
        mode: Single::Unknown,
        dimming: Single::Unknown,
        display: Single::Unknown,
        led: 0,
        count: Single::Unknown,
        position: Single::Known(IGNORING),
        ..c
    }
}
