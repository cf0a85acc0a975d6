// Lines of values: a name, a colon, and what is known of each cell. `full` has the marks of a cell of which every bit is known.
ghost use Rattle.std.specs.Prelude.{◌≡◌, ◌+◌, ◌*◌, ◌<◌, ◌≤◌, length};
ghost use Rattle.writing.specs.Wrote.{Wrote};
ghost use Rattle.lines.specs.Lines.{values as lines_values, line as lines_line, lines as lines_lines};
ghost use Rattle.lines.specs.Lines.{named};

use text::{digit, shown};
use writing::Writer;

// Values, a space in front of each.
fn values(w: &mut Writer, full: u8, codes: &[u16])
    ensures { Wrote w.old (lines_values full codes.now) w.new }
{
    for code in codes {
        w.put(b' ');
        shown(w, full, *code);
    }
}

pub fn line(w: &mut Writer, full: u8, name: &[u8], codes: &[u16])
    ensures { Wrote w.old (lines_line full name.now codes.now) w.new }
{
    w.words(name);
    w.put(b':');
    values(w, full, codes);
    w.put(b'\n');
}

// How lines are named: by the address of the first cell, or by the number of the character.
#[derive(Clone, Copy)]
pub enum Names {
    Addresses,
    Characters,
}

impl Names {
    // The name of line number i, of `width` values.
    fn of(self, width: u8, i: u8) -> [u8; 2]
        requires { (i < 16) × (i * width ≤ 255) }
        ensures { result ≡ named self width i }
    {
        match self {
            Names::Addresses => {
                let first = i * width;
                [digit(first / 16), digit(first % 16)]
            }
            Names::Characters => [b'G', digit(i)],
        }
    }
}

// n lines of `width` values each. A width of 0 is one too, so that the codes aren't taken by `chunks`.
pub fn lines(w: &mut Writer, full: u8, names: Names, width: u8, n: u8, codes: &[u16])
    requires { (width * n ≤ length codes.now) × ((width * n ≤ 255) × (n ≤ 16)) }
    ensures { Wrote w.old (lines_lines full (named names width) width n 0 codes.now) w.new }
{
    for i in 0..n {
        let from = (i * width) as usize;
        let end = from + width as usize;
        line(w, full, &names.of(width, i), &codes[from..end]);
    }
}
