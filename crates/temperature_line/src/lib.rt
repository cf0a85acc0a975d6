// The line that is printed of a temperature.
#![tactic(auto)]

ghost use Rattle.writing.specs.Prints.{Prints};
ghost use Rattle.refusals.specs.Refusal.{refused_at};
ghost use Rattle.temperature_line.specs.Line.{Printable, WritesLine, room, PrintsLine};

use degrees::write_degrees;
use refusals::refused;
use terms::Place;
use thermometer::Answer;
use writing::Writer;

// Enough for every line.
pub const ROOM: usize = 64;

// Writes the line to the front of `out`, and gives its length. Where `out` has less than ROOM bytes nothing is written, and the length is 0, since a number
// that is cut would pass for another. A reading must be some half degrees, as every reading is that `temperature` gives.
// No type keeps that: of a reading `Line.Printable` is `Half.Halved` (`half_degrees::halves_of` says why), and `Answer::Reading(f32)`, which a caller can make of any float, is the form that paper 02 names.
pub fn write_line(answer: Answer, out: &mut [u8]) -> usize
    requires { Printable answer }
    ensures { PrintsLine answer out.old result out.new }
{
    if out.len() < ROOM {
        return 0;
    }
    write_said(answer, out)
}

// The line of any other refusal, likewise.
pub fn write_refusal(number: u8, place: Place, out: &mut [u8]) -> usize
    ensures { Prints room (refused_at number place.0) out.old result out.new }
{
    if out.len() < ROOM {
        return 0;
    }
    let mut w = Writer { out, at: 0 };
    refused(&mut w, number, place);
    w.at
}

fn write_said(answer: Answer, out: &mut [u8]) -> usize
    requires { Printable answer }
    ensures { WritesLine answer out.old result out.new }
{
    let mut w = Writer { out, at: 0 };
    match answer {
        Answer::Reading(degrees) => {
            w.at = write_degrees(degrees, w.out);
            w.put(b'\n');
        }
        Answer::NoReading => w.words(b"no reading\n"),
        Answer::Dark => w.words(b"dark\n"),
        Answer::Unknown => w.words(b"unknown\n"),
        Answer::NotAReading => w.words(b"not a reading\n"),
        Answer::NoPart(at) => refused(&mut w, 1, at),
        Answer::OutOfRange(at) => refused(&mut w, 2, at),
        Answer::NoField(at) => refused(&mut w, 11, at),
    }
    w.at
}
