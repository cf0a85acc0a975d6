// The whole page of a replay.
ghost use Rattle.terms.specs.Part.{part_of};
ghost use Rattle.writing.specs.Wrote.{Wrote};
ghost use Rattle.writing.specs.Prints.{Prints};
ghost use Rattle.page.specs.Page.{done_at, page, room};

use answers::{Answer, told_of};
use listing::memory;
use panel::Panel;
use refusals::refused;
use terms::Place;
use text::decimal;
use writing::Writer;

// Enough for every page.
pub const ROOM: usize = 300;

// Writes the page of a replay of that part to the front of `out`, and gives its length. Where `out` has less than ROOM bytes nothing is written, and the
// length is 0.
pub fn write_page(part: u8, answer: Answer, panel: Panel, out: &mut [u8]) -> usize
    ensures { Prints room (page (part_of part) answer panel) out.old result out.new }
{
    if out.len() < ROOM {
        return 0;
    }
    let mut w = Writer { out, at: 0 };
    let told = told_of(answer);
    if told.number == 0 {
        done(&mut w, told.place);
        memory(&mut w, part, panel);
        return w.at;
    }
    refused(&mut w, told.number, told.place);
    w.at
}

fn done(w: &mut Writer, place: Place)
    ensures { Wrote w.old (done_at place.0) w.new }
{
    w.words(b"done at ");
    decimal(w, place.0);
    w.put(b'\n');
}
