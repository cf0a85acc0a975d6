// The records of every day for PT6312 and PT6315, one behind the other.
#![tactic(auto)]

mod still;

ghost use Rattle.std.specs.Prelude.{◌≤◌, length};
ghost use Rattle.segment_everyday.specs.Arms.{GoesOn};

use crate::still::still;
use byte_runs::ByteRun;
use changes::{forget, meet_one};
use lamp_tests::none_known;
use lamps::{EIGHT, FOUR, code_of, cut};
use one_record::{Everyday, everyday_at};
use segment::{Command, Family};
use segment_first_byte::command_of;
use segment_knowledge::{Control, no_control};
use segment_known::{
    Target, address_set, counted_on, data_set, display_set, falls, goes_to, in_test, lit, meets,
    nothing_left, perhaps_lit, perhaps_stepped, rises, stepping_set, taken, to_mode,
};
use stored_runs::put_run;
use terms::{Event, Place};

// The place of the first record that is not of every day, or the end, and what is known there beside the cells.
#[derive(Clone, Copy)]
pub struct Went {
    pub at: Place,
    pub control: Control,
}

// The cells are changed where they stand. The events of every day have arms of their own, and cost no call; what is known beside the cells is assigned in each arm,
// since the compiler then changes it where it stands, too.
pub fn everyday_walk(
    family: Family,
    cells: &mut [u16; 36],
    was: Control,
    bytes: &[u8],
    from: Place,
) -> Went
    requires { from.0 ≤ length bytes.now }
    ensures { GoesOn family bytes.now from.0 cells.old was result.at.0 cells.new result.control }
{
    let sizes = family.sizes();
    let mut control = was;
    let mut i = from.0;
    // Each turn goes on by the length of a record or of a run, which no range and no iterator gives.
    while i < bytes.len() {
        let at = Place(i);
        let record = everyday_at(bytes, at);
        match record {
            Everyday::Falls => {
                control = falls(control);
                i += 1;
            }
            Everyday::Strobe(byte) => {
                control = falls(control);
                let command = command_of(family, byte);
                match command {
                    Command::Mode(code) => control = to_mode(family, control, code),
                    Command::Test => {
                        control = in_test(family, control);
                        forget(cells);
                    }
                    Command::Setting(data, stepping) => control = data_set(
                        family, control, data, stepping,
                    ),
                    Command::AnySetting(stepping) => control = stepping_set(
                        family, control, stepping,
                    ),
                    Command::Control(dimming, display) => control = display_set(
                        family, control, dimming, display,
                    ),
                    Command::Start(address) => control = address_set(family, control, address),
                }
                i += 3;
            }
            Everyday::Rises => {
                control = rises(control);
                i += 1;
            }
            Everyday::ByteIn(byte) => {
                let run = ByteRun { bytes, at };
                let to = goes_to(family, control);
                match to {
                    Target::Cell(cell) => {
                        let count = put_run(cells, EIGHT, cell, sizes.cells, run);
                        control = counted_on(family, control, cell, count);
                        i += 2 * count;
                    }
                    Target::Anywhere => {
                        if none_known(cells) {
                            i += 2 * run.passed();
                        } else {
                            let common = run.shared(EIGHT);
                            meets(family, cells, common.code);
                            i += 2 * common.count;
                        }
                    }
                    Target::Perhaps => {
                        let common = run.shared(EIGHT);
                        control = perhaps_lit(control, cut(FOUR, common.code));
                        if !none_known(cells) {
                            meets(family, cells, common.code);
                        }
                        i += 2 * common.count;
                    }
                    Target::Nowhere => i += 2 * run.passed(),
                    Target::Led => {
                        control = lit(control, byte);
                        i += 2;
                    }
                    Target::PerhapsCell(cell) => {
                        control = perhaps_lit(control, code_of(FOUR, byte));
                        control = perhaps_stepped(control, cell);
                        meet_one(cells, EIGHT, cell, byte);
                        i += 2;
                    }
                    Target::PerhapsLed => {
                        control = perhaps_lit(control, code_of(FOUR, byte));
                        i += 2;
                    }
                    Target::Elsewhere => {
                        if nothing_left(control) && none_known(cells) {
                            i += 2 * run.passed();
                        } else {
                            let count = still(family, control, cells, run);
                            if 0 < count {
                                i += 2 * count;
                            } else {
                                control = taken(family, control, cells, Event::ByteIn(byte));
                                i += 2;
                            }
                        }
                    }
                }
            }
            Everyday::Gap => {
                control = no_control();
                forget(cells);
                i += 1;
            }
            Everyday::Other => {
                return Went { at, control };
            }
        }
    }
    Went {
        at: Place(i),
        control,
    }
}
