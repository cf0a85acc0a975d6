// A run of which each byte may have gone to any of several places.
ghost use Rattle.byte_runs.specs.Sharing.{Shares};

use crate::starting::ByteRun;
use lamps::{both_lamps, code_of};

// The number of records, and a code of what their bytes have in common.
#[derive(Clone, Copy)]
pub struct Common {
    pub count: usize,
    pub code: u16,
}

impl ByteRun<'_> {
    pub fn shared(self, wide: u16) -> Common
        ensures { Shares wide self.entry.bytes.now self.entry.at.0 result.count result.code }
    {
        let bytes = self.bytes;
        let from = self.at.0;
        let most = (bytes.len() - from) / 2;
        let mut code = code_of(wide, bytes[from + 1]);
        for j in 1..most {
            if bytes[from + 2 * j] != 3 {
                return Common { count: j, code };
            }
            code = both_lamps(code, code_of(wide, bytes[from + 2 * j + 1]));
        }
        Common { count: most, code }
    }
}
