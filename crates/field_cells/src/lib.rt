// The five cells of a temperature field as bytes, where all are known.
#![tactic(auto)]

ghost use Rattle.std.specs.Prelude.{◌≡◌, ◌≤◌};
ghost use Rattle.lamps.specs.Whole.{whole};
ghost use Rattle.field.specs.declared.spelling.Five.{Five};
ghost use Rattle.field.specs.Said.{Said};
ghost use Rattle.field.specs.Field.{if_all};
ghost use Rattle.field_cells.specs.Cells.{by_row, byte_at, read_as};

use field::Five;
use terms::Address;

// The five cells from the start on, where each of them is known.
pub fn five_at(dcram: [u16; 16], start: Address) -> Option<Five>
    requires { start.0 ≤ 11 }
    ensures { (rest : Five → Said) → by_row result rest ≡ if_all (byte_at dcram) start.0 rest }
{
    let at = start.0 as usize;
    Some(Five {
        sign: byte_in(dcram[at])?,
        tens: byte_in(dcram[at + 1])?,
        units: byte_in(dcram[at + 2])?,
        point: byte_in(dcram[at + 3])?,
        half: byte_in(dcram[at + 4])?,
    })
}

// The byte that a cell is known to hold: a cell with any bit unknown counts as unknown (M-107).
fn byte_in(code: u16) -> Option<u8>
    ensures { read_as result ≡ whole 8 code }
{
    if code < 0xFF00 {
        return None;
    }
    Some((code % 256) as u8)
}
