// What is known of a PT6312 or PT6315 panel when the bytes of an update have gone out, told from what the update sent, with no replay of these bytes.
#![tactic(auto)]

ghost use Rattle.std.specs.Prelude.{◌≡◌, ◌≤◌, length};
ghost use Rattle.segment.specs.Family.{sizes};
ghost use Rattle.segment.specs.Fact.{Fact};
ghost use Rattle.segment_knowledge.specs.View.{kview};
ghost use Rattle.updating.specs.Updated.{known_after};
ghost use Rattle.segment_refreshed.specs.Sent.{SentSome, Spelt};

use fact::Single;
use lamps::{EIGHT, put_byte};
use segment::{Family, Pointer};
use segment_knowledge::{Control, IDLE, INCREMENT, Knowledge, Pointing, WRITE_DISPLAY};
use terms::Address;
use updating::reads_behind;

// Of an update that sends a cell: `set` says that the data setting was known to be right, so that no 40H went first, and `behind` is the cell behind the last run.
pub fn refreshed(
    family: Family,
    known: Knowledge,
    set: bool,
    wanted: [u8; 36],
    behind: Address,
) -> Knowledge
    requires { SentSome (sizes family) (kview known) wanted set behind.0 }
    ensures { (f : Fact) → kview result f ≡ known_after (sizes family) (kview known) wanted f }
{
    let sizes = family.sizes();
    let mut cells = known.cells;
    spell(&mut cells, &wanted, sizes.cells as usize);
    let control = known.control;
    let was = control.count;
    let count = reads_behind(set, was);
    Knowledge {
        cells,
        control: Control {
            address: Pointing::Known(Pointer::At(behind)),
            data: Single::Known(WRITE_DISPLAY),
            stepping: Single::Known(INCREMENT),
            count,
            position: Single::Known(IDLE),
            ..control
        },
    }
}

// The first n cells are known to hold their wanted bytes: those that were sent, and those that held them before.
// `runs::Ring` does not fit here: it lends both rows to be read alone, and `spell` writes the codes.
fn spell(cells: &mut [u16], wanted: &[u8], n: usize)
    requires { (n ≤ length cells.old) × (n ≤ length wanted.now) }
    ensures { Spelt wanted.now n cells.old cells.new }
{
    for i in 0..n {
        cells[i] = put_byte(EIGHT, cells[i], wanted[i]);
    }
}
