// A run of bytes clocked in, put into a row of codes where the row stands.
#![tactic(auto)]

ghost use Rattle.std.specs.Prelude.{◌<◌, ◌≤◌, length};
ghost use Rattle.stored_runs.specs.Putting.{PutsRun};

use byte_runs::ByteRun;
use lamps::put_byte;
use terms::Address;

// Puts the bytes into the codes from the first on, each behind the one before it, up to the end of the memory, and tells how many they are. The run ends
// before the first record that is none.
pub fn put_run(codes: &mut [u16], wide: u16, first: Address, cells: u8, run: ByteRun) -> usize
    requires inside { first.0 < cells }
    requires room { cells ≤ length codes.old }
    ensures { PutsRun wide first.0 cells run.entry.bytes.now run.entry.at.0 codes.old result codes.new }
{
    let bytes = run.bytes;
    let from = run.at.0;
    let start = first.0 as usize;
    let records = (bytes.len() - from) / 2;
    let most = records.min(cells as usize - start);
    for j in 0..most {
        if bytes[from + 2 * j] != 3 {
            return j;
        }
        let i = start + j;
        codes[i] = put_byte(wide, codes[i], bytes[from + 2 * j + 1]);
    }
    most
}
