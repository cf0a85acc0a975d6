// Bytes of which it is not known where in a RAM they went, or whether they went anywhere.
ghost use Rattle.std.specs.Prelude.{◌<◌};
ghost use Rattle.character_known.specs.Together.{together};
ghost use Rattle.character_walks.specs.Reached.{Leads};

use crate::drift::gather_run;
use byte_runs::ByteRun;
use changes::meet;
use character_knowledge::Control;
use character_known::{Rows, nothing_known, strays, taken};
use lamps::{EIGHT, SEVEN, TWO, cut};
use terms::Event;

// What is known beside the memory behind the bytes that were taken, and how many they are.
#[derive(Clone, Copy)]
pub struct Strayed {
    pub control: Control,
    pub count: usize,
}

// Takes a run of bytes: where nothing is known it is passed over, and else the cells that its bytes may have gone to meet what these have in common once. Where a run cannot be taken so, it
// takes one byte.
pub fn stray_run(c: Control, rows: &mut Rows, run: ByteRun) -> Strayed
    ensures some { 0 < result.count }
    ensures leads { Leads run.entry.bytes.now run.entry.at.0 result.count (together rows.old c) (together rows.new result.control) }
{
    let place = strays(c);
    if nothing_known(c, place, &rows.dcram, &rows.cgram, &rows.adram) {
        return Strayed {
            control: c,
            count: run.passed(),
        };
    }
    let gathered = gather_run(c, place, run);
    let count = gathered.count;
    if count == 0 {
        let event = Event::ByteIn(run.bytes[run.at.0 + 1]);
        let control = taken(c, rows, event);
        return Strayed { control, count: 1 };
    }
    let code = gathered.code;
    meet(&mut rows.dcram, EIGHT, 0, 1, gathered.dcram, code);
    meet(
        &mut rows.cgram,
        SEVEN,
        0,
        1,
        gathered.cgram,
        cut(SEVEN, code),
    );
    meet(&mut rows.adram, TWO, 0, 1, gathered.adram, cut(TWO, code));
    Strayed {
        control: gathered.control,
        count,
    }
}
