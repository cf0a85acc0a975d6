// The writing of an update of PT6312 and PT6315: what is known of the cells, the wanted ones and a lent output become the recording that sends just the
// cells that differ, and where it ended.
#![tactic(auto)]

ghost use Rattle.std.specs.Prelude.{◌≡◌, eqb, Some, None, [], ◌∷◌};
ghost use Rattle.rules.specs.Choice.{whether};
ghost use Rattle.writing.specs.Wrote.{Wrote};
ghost use Rattle.terms.specs.Event.{recording, strobe};
ghost use Rattle.runs.specs.Survey.{differ};
ghost use Rattle.updating.specs.Answer.{number};
ghost use Rattle.segment_updater.specs.Sends.{Sends, behind_of};

use runs::Ring;
use strobes::write_single;
use terms::{Address, Place};
use updating::{NotUpdated, StreamSize, Updated};
use writing::Writer;

// What an update came to, and where it ended.
#[derive(Clone, Copy)]
pub struct Sending {
    pub answer: Updated,
    // The cell behind the last run that was sent, which is where the address stands then; none where the update was refused, or had nothing to change.
    pub behind: Option<Address>,
}

// 40H goes first where the setting is not known, unless nothing differs. A byte that goes over the wire is a record of two bytes, and each
// strobe has two more, its fall and its rise.
pub fn send(ring: Ring, set: bool, out: &mut [u8]) -> Sending
    ensures { Sends ring.entry.n (differ ring.entry.codes.now ring.entry.wanted.now) set ring.entry.wanted.now out.old result.answer out.new
        × (result.behind ≡ behind_of ring.entry.n (differ ring.entry.codes.now ring.entry.wanted.now) (number result.answer)) }
{
    let found = ring.look_over();
    let cells = found.cells;
    let runs = found.runs;
    let setting = !set & (cells != 0);
    let first = setting as usize;
    let size = 2 * cells + 4 * (runs + first);
    if out.len() < size {
        return Sending {
            answer: Err(NotUpdated::TooSmall(Place(0))),
            behind: None,
        };
    }
    let mut w = Writer { out, at: 0 };
    write_setting(&mut w, setting);
    let end = ring.write_runs(&mut w, found.front);
    Sending {
        answer: Ok(StreamSize {
            length: Place(size),
            wire: cells + runs + first,
        }),
        behind: behind_last(cells, end),
    }
}

// Where no cell differs there is no run.
fn behind_last(cells: usize, end: Address) -> Option<Address>
    ensures { result ≡ whether (eqb cells 0) None (Some end) }
{
    if cells == 0 { None } else { Some(end) }
}

// The 40H strobe, if it is needed.
fn write_setting(w: &mut Writer, setting: bool)
    ensures { Wrote w.old (recording (whether setting (strobe (0x40 ∷ [])) [])) w.new }
{
    if setting {
        write_single(w, 0x40);
    }
}
