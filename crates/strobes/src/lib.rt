// Writing the strobes of a recording to lent memory, as far as there is room.
#![tactic(auto)]

mod placed;

ghost use Rattle.std.specs.Prelude.{[], ◌∷◌, map};
ghost use Rattle.writing.specs.Wrote.{Wrote};
ghost use Rattle.terms.specs.declared.Event.TheVariants.{ByteIn};
ghost use Rattle.terms.specs.Event.{recording, strobe};

use placed::strobe_at;
use writing::Writer;

// One whole byte clocked in.
pub fn byte_in(w: &mut Writer, byte: u8)
    ensures { Wrote w.old (3 ∷ byte ∷ []) w.new }
{
    w.put(3);
    w.put(byte);
}

fn bytes_in(w: &mut Writer, bytes: &[u8])
    ensures { Wrote w.old (recording (map ByteIn bytes.now)) w.new }
{
    for byte in bytes {
        byte_in(w, *byte);
    }
}

// A strobe with a first byte and those behind it. Where there is room for all of it, which is asked once, no byte asks for room again.
pub fn write_strobe(w: &mut Writer, first: u8, rest: &[u8])
    ensures { Wrote w.old (recording (strobe (first ∷ rest.now))) w.new }
{
    if w.at <= w.out.len() && rest.len() + 2 <= (w.out.len() - w.at) / 2 {
        w.at = strobe_at(w.out, w.at, first, rest);
        return;
    }
    w.put(2);
    byte_in(w, first);
    bytes_in(w, rest);
    w.put(4);
}

// A strobe with one byte.
pub fn write_single(w: &mut Writer, byte: u8)
    ensures { Wrote w.old (recording (strobe (byte ∷ []))) w.new }
{
    write_strobe(w, byte, &[]);
}
