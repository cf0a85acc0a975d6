// The walk for PT6302.
#![tactic(auto)]

mod astray;
mod drift;
mod rows;

ghost use Rattle.character_walks.specs.Walks.{Walks};

use crate::astray::stray_run;
use crate::rows::forget_all;
use byte_runs::ByteRun;
use character::{Command, command_of};
use character_knowledge::{Knowledge, no_control};
use character_known::{
    Rows, Target, digits_set, draw_from, drawn_by, duty_set, falls, goes_to, ignoring_on,
    lights_set, mark_from, marked_by, port_set, rises, show_from, shown_by, taken, undefined_in,
};
use lamps::{EIGHT, SEVEN, TWO};
use one_record::{Everyday, everyday_at, record_at};
use pointing::stops_at;
use recording::Record;
use stored_runs::put_run;
use terms::{Part, Place};
use walks::Walked;

// The rows are changed where they stand. The records of every day have arms of their own, and cost no call; a run of bytes is taken whole, as all of
// them go where the first one goes. Each arm sets what is known beside the memory here in the loop, so that it stays where it is.
pub fn character_walk(part: Part, k: Knowledge, bytes: &[u8]) -> Walked<Knowledge>
    ensures { Walks part k bytes.now result }
{
    let Knowledge {
        dcram,
        cgram,
        adram,
        mut control,
    } = k;
    let mut rows = Rows {
        dcram,
        cgram,
        adram,
    };
    let mut i = 0;
    // Each turn goes on by the length of a record or of a run, which no range and no iterator gives.
    while i < bytes.len() {
        let at = Place(i);
        let day = everyday_at(bytes, at);
        match day {
            Everyday::Falls => {
                control = falls(control);
                i += 1;
            }
            Everyday::Strobe(byte) => {
                control = falls(control);
                let command = command_of(byte);
                match command {
                    Command::Dcram(address) => control = show_from(control, address),
                    Command::Cgram(address) => control = draw_from(control, address),
                    Command::Adram(address) => control = mark_from(control, address),
                    Command::Port(bits) => control = port_set(control, bits),
                    Command::Duty(duty) => control = duty_set(control, duty),
                    Command::Digits(digits) => control = digits_set(control, digits),
                    Command::Light(lights) => control = lights_set(control, lights),
                    Command::Nothing => control = ignoring_on(control),
                    Command::Undefined => {
                        control = undefined_in();
                        forget_all(&mut rows);
                    }
                }
                i += 3;
            }
            Everyday::Rises => {
                control = rises(control);
                i += 1;
            }
            Everyday::ByteIn(_) => {
                let run = ByteRun { bytes, at };
                let to = goes_to(control);
                match to {
                    Target::Shown(cell) => {
                        let n = put_run(&mut rows.dcram, EIGHT, cell, 16, run);
                        control = shown_by(control, cell, n);
                        i += 2 * n;
                    }
                    Target::Drawn(cell) => {
                        let n = put_run(&mut rows.cgram, SEVEN, cell, 40, run);
                        control = drawn_by(control, cell, n);
                        i += 2 * n;
                    }
                    Target::Marked(cell) => {
                        let n = put_run(&mut rows.adram, TWO, cell, 16, run);
                        control = marked_by(control, cell, n);
                        i += 2 * n;
                    }
                    Target::Nowhere => i += 2 * run.passed(),
                    Target::Elsewhere => {
                        let strayed = stray_run(control, &mut rows, run);
                        control = strayed.control;
                        i += 2 * strayed.count;
                    }
                }
            }
            Everyday::Gap => {
                control = no_control();
                forget_all(&mut rows);
                i += 1;
            }
            Everyday::Other => {
                match record_at(part, bytes, at) {
                    Ok(Record { event, length }) => {
                        control = taken(control, &mut rows, event);
                        i += length;
                    }
                    Err(refusal) => {
                        return Walked {
                            ending: Err(stops_at(refusal, bytes, at)),
                            k: rows.with(control),
                        };
                    }
                }
            }
        }
    }
    Walked {
        ending: Ok(()),
        k: rows.with(control),
    }
}
