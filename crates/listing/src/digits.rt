// The memory that is known of a panel, line by line.
ghost use Rattle.std.specs.Prelude.{◌*◌, ◌≤◌, length};
ghost use Rattle.terms.specs.Part.{part_of};
ghost use Rattle.writing.specs.Wrote.{Wrote};
ghost use Rattle.listing.specs.Memory.{memory as of_memory, digits as of_digits, rams as of_rams};

use lines::{Names, line, lines};
use panel::Panel;
use terms::Part;
use writing::Writer;

// The memory of a part. It is never longer than that of PT6302.
pub fn memory(w: &mut Writer, part: u8, panel: Panel)
    ensures { (Wrote w.old (of_memory (part_of part) panel) w.new)
        × (length (of_memory (part_of part) panel) ≤ 254) }
{
    let segment = panel.segment;
    let cells = segment.cells;
    let character = panel.character;
    let dcram = character.dcram;
    let cgram = character.cgram;
    let adram = character.adram;
    match Part::try_from(part) {
        Ok(Part::Pt6302) => rams(w, dcram, cgram, adram),
        Ok(Part::Pt6312) => segments(w, 2, 11, cells),
        Ok(Part::Pt6315) => segments(w, 3, 12, cells),
        Err(_) => {}
    }
}

fn segments(w: &mut Writer, width: u8, n: u8, cells: [u16; 36])
    requires { (width * n ≤ 36) × (n ≤ 16) }
    ensures { (Wrote w.old (of_digits width n cells) w.new)
        × (length (of_digits width n cells) ≤ 254) }
{
    lines(w, 0xFF, Names::Addresses, width, n, &cells);
}

fn rams(w: &mut Writer, dcram: [u16; 16], cgram: [u16; 40], adram: [u16; 16])
    ensures { (Wrote w.old (of_rams dcram cgram adram) w.new)
        × (length (of_rams dcram cgram adram) ≤ 254) }
{
    line(w, 0xFF, b"D", &dcram);
    lines(w, 0x7F, Names::Characters, 5, 8, &cgram);
    line(w, 0x03, b"A", &adram);
}
