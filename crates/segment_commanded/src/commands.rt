// What a command does to a chip.
ghost use Rattle.rules.specs.Rule.{gives};
ghost use Rattle.segment.specs.View.{By};
ghost use Rattle.segment.specs.declared.command.Command.TheVariants.{AnySetting};
ghost use Rattle.segment.specs.Move.{to_mode, tested, commanded};

use crate::positions::at;
use segment::{Anything, Command, Display, Moved, NONE, Position, Segment, Stepping};

pub fn commanded(chip: Segment, command: Command) -> Moved
    ensures { By (commanded command) chip result }
{
    match command {
        Command::Mode(mode) => to_mode(chip, mode),
        Command::Test => in_test(chip),
        Command::Setting(data, stepping) => at(
            Segment {
                data,
                stepping,
                count: 0,
                ..chip
            },
            Position::Open,
        ),
        Command::AnySetting(stepping) => set_to_any(chip, stepping),
        Command::Control(dimming, display) => at(
            Segment {
                dimming,
                display,
                ..chip
            },
            Position::Ignoring,
        ),
        Command::Start(address) => at(Segment { address, ..chip }, Position::Open),
    }
}

fn to_mode(chip: Segment, mode: u8) -> Moved
    ensures { By (to_mode mode chip.mode) chip result }
{
    if chip.mode == mode {
        Moved {
            chip: Segment {
                position: Position::Ignoring,
                ..chip
            },
            any: NONE,
        }
    } else {
        Moved {
            chip: Segment {
                mode,
                display: Display::Off,
                position: Position::Ignoring,
                ..chip
            },
            any: NONE,
        }
    }
}

fn in_test(chip: Segment) -> Moved
    ensures { By (gives tested) chip result }
{
    Moved {
        chip: Segment {
            position: Position::Ignoring,
            ..chip
        },
        any: Anything {
            memory: true,
            data: true,
            settings: true,
            ..NONE
        },
    }
}

fn set_to_any(chip: Segment, stepping: Stepping) -> Moved
    ensures { By (commanded (AnySetting stepping)) chip result }
{
    Moved {
        chip: Segment {
            stepping,
            count: 0,
            position: Position::Open,
            ..chip
        },
        any: Anything { data: true, ..NONE },
    }
}
