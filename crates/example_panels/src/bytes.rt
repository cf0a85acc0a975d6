// The bytes of a line, for which there is room in a row.
ghost use Rattle.std.specs.Prelude.{◌<◌, ◌≤◌, ◌^◌};

#[derive(Drop)]
pub struct Bytes<const ROOM: usize> {
    row: [u8; ROOM],
    length: usize,
    // Where what is repeated begins.
    mark: usize,
    ghost room: { ROOM < 2 ^ 63 },
    ghost within: { length ≤ ROOM },
    ghost marked: { mark ≤ length },
}

impl<const ROOM: usize> Bytes<ROOM> {
    // Of a line that has none.
    pub fn new() -> Bytes<ROOM>
        requires { ROOM < 2 ^ 63 }
    {
        Bytes {
            row: [0; ROOM],
            length: 0,
            mark: 0,
        }
    }

    pub fn clear(&mut self) {
        self.mark = 0;
        self.length = 0;
    }

    pub fn as_slice(&self) -> &[u8] {
        &self.row[..self.length]
    }

    // Where there is no room all stays as it is.
    pub fn push(&mut self, byte: u8) {
        if self.length < ROOM {
            self.row[self.length] = byte;
            self.length += 1;
        }
    }

    // What is repeated begins behind what came so far.
    pub fn mark(&mut self) {
        self.mark = self.length;
    }

    // Repeats what came behind the mark until there are as many bytes as are asked for. Where there is nothing to repeat, or no room, all stays as it is.
    pub fn repeat(&mut self, end: usize) {
        let from = self.length;
        if self.mark < from && from < end && end <= ROOM {
            // What stands behind the mark is a whole number of groups at each turn, so that all of it can be copied. A turn goes on by as much as stands there, which
            // no range does.
            let mark = self.mark;
            let row = &mut self.row;
            let mut at = from;
            while at < end {
                let n = (at - mark).min(end - at);
                row.copy_within(mark..mark + n, at);
                at += n;
            }
            self.length = end;
        }
    }
}
