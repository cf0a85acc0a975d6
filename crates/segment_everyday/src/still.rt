// A run of bytes at an unknown position that change nothing.
ghost use Rattle.segment_everyday.specs.Still.{Stills};

use byte_runs::ByteRun;
use fact::Single;
use segment::Family;
use segment_knowledge::Control;
use segment_known::unmoved;

// How many such records there are in a row. The loop is by itself, since the compiler then reads what is known once for the whole run.
pub fn still(family: Family, c: Control, cells: &[u16], run: ByteRun) -> usize
    ensures { Stills family c cells.now run.entry.bytes.now run.entry.at.0 result }
{
    let position = c.position;
    let Single::Unknown = position else {
        return 0;
    };
    let bytes = run.bytes;
    let from = run.at.0;
    let most = (bytes.len() - from) / 2;
    for j in 0..most {
        let k = from + 2 * j;
        if bytes[k] != 3 {
            return j;
        }
        if !unmoved(family, c, cells, bytes[k + 1]) {
            return j;
        }
    }
    most
}
