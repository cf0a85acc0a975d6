// A run that changes nothing.
ghost use Rattle.std.specs.Prelude.{◌<◌};
ghost use Rattle.walks.specs.Run.{Run};

use crate::starting::ByteRun;

impl ByteRun<'_> {
    // How many records there are in the run.
    pub fn passed(self) -> usize
        ensures some { 0 < result }
        ensures run { Run self.entry.bytes.now self.entry.at.0 result }
    {
        let bytes = self.bytes;
        let from = self.at.0;
        let most = (bytes.len() - from) / 2;
        for j in 1..most {
            if bytes[from + 2 * j] != 3 {
                return j;
            }
        }
        most
    }
}
