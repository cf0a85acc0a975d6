// Writing text to lent memory, as far as there is room.
#![tactic(auto)]

ghost use Rattle.std.specs.Prelude.{[], ◌∷◌};
ghost use Rattle.writing.specs.Wrote.{Wrote};

// Lent memory, and the place behind what was written so far. It may be any place: behind the memory's end nothing is written.
#[derive(Drop)]
pub struct Writer<'a> {
    pub out: &'a mut [u8],
    pub at: usize,
}

impl Writer<'_> {
    // One byte.
    pub fn put(&mut self, byte: u8)
        ensures { Wrote self.old (byte ∷ []) self.new }
    {
        if self.at < self.out.len() {
            self.out[self.at] = byte;
            self.at += 1;
        }
    }

    // Several bytes, one behind the other.
    pub fn words(&mut self, text: &[u8])
        ensures { Wrote self.old text.now self.new }
    {
        for byte in text {
            self.put(*byte);
        }
    }
}
