// The line of a refusal, which every program prints alike.
#![tactic(auto)]

ghost use Rattle.writing.specs.Wrote.{Wrote};
ghost use Rattle.refusals.specs.Refusal.{refused_at};

use terms::Place;
use text::decimal;
use writing::Writer;

pub fn refused(w: &mut Writer, number: u8, place: Place)
    ensures { Wrote w.old (refused_at number place.0) w.new }
{
    w.words(b"refused ");
    decimal(w, number as usize);
    w.words(b" at ");
    decimal(w, place.0);
    w.put(b'\n');
}
