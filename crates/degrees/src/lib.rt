// Degrees for people, of a float that is some half degrees.
#![tactic(auto)]

ghost use Rattle.writing.specs.Wrote.{Wrote};
ghost use Rattle.half_degrees.specs.Half.{Halved};
ghost use Rattle.degrees.specs.Degrees.{sized, Degrees};

use half_degrees::halves_of;
use text::decimal;
use writing::Writer;

pub fn write_degrees(degrees: f32, out: &mut [u8]) -> usize
    requires { Halved degrees }
    ensures { Degrees degrees out.old result out.new }
{
    let halves = halves_of(degrees);
    let mut w = Writer { out, at: 0 };
    if halves.negative {
        w.put(b'-');
        write_size(&mut w, halves.size);
        return w.at;
    }
    write_size(&mut w, halves.size);
    w.at
}

// Whole degrees, a point, and 0 or 5, which is the digit of five times the half that is left.
fn write_size(w: &mut Writer, halves: u8)
    ensures { Wrote w.old (sized halves) w.new }
{
    decimal(w, (halves / 2) as usize);
    w.put(b'.');
    w.put(b'0' + 5 * (halves % 2));
}
