// A stream that keeps why a read of it failed, for who says so.
ghost use Rattle.std.specs.Prelude.{◌≡◌, None, Some, OnOk, IfErr};
ghost use Rattle.std.specs.Io.{ReadsAtMost};
ghost use Rattle.std.specs.Io.KnownBytes.{ReadConsumes};

use std::io;
use std::io::Read;

#[derive(Drop)]
pub struct Stream<R> {
    pub from: R,
    // The error of the last read that failed, if one did.
    pub error: Option<io::Error>,
}

impl<R> Stream<R> {
    // A stream of which nothing was read.
    pub fn new(from: R) -> Stream<R>
        ensures from { result.from ≡ from }
        ensures error { result.error ≡ None }
    {
        Stream { from, error: None }
    }
}

impl<R: Read> Read for Stream<R> {
    ghost remaining = { λ s. R.remaining s.from };

    fn read(&mut self, buf: &mut [u8]) -> io::Result<usize>
        ensures bound { ReadsAtMost result buf.new }
        ensures bytes { ReadConsumes (R.remaining self.old.from) (R.remaining self.new.from) result buf.new }
        ensures ok { OnOk result (self.new.error ≡ self.old.error) }
        ensures err { IfErr result (λ e. self.new.error ≡ Some e) }
    {
        let result = self.from.read(buf);
        if let Err(e) = result {
            self.error = Some(e);
        }
        result
    }
}
