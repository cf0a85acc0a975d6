// A line's words, character by character. A word is a byte in hex, or a name that may have numbers in hex: as cell07=09, cell07=09/F6, cell07? or @0007.

// The number of ?, and that of !. Digits behind them go on from there, so that no case of an enum can stand for them.
pub const UNKNOWN: u16 = 256;

pub const INVALID: u16 = 257;

#[derive(Clone, Copy)]
pub struct Word {
    // The first character that is part of no number, or the digit 0 where only digits were read.
    pub name: Option<u8>,
    // The number before =, ? or !.
    pub at: usize,
    // The number that stands last; behind a / it is 65536 more than the two bytes before and behind that.
    pub number: usize,
}

impl Word {
    // A word of which nothing was read.
    pub fn new() -> Word {
        Word {
            name: None,
            at: 0,
            number: 0,
        }
    }

    // Whether the word ends at a character: at a space or with its line, and a remark, which begins with #, with its line alone.
    pub fn ends(&self, c: u8) -> bool {
        match c {
            b' ' => self.name != Some(b'#'),
            _ => c == b'\n',
        }
    }

    // Reads one more character that does not end the word. A closing bracket counts for nothing, and neither does a NUL.
    pub fn read(&mut self, c: u8) {
        match c {
            b'0'..=b'9' => self.digit(c - b'0'),
            b'A'..=b'F' => self.digit(c - b'A' + 10),
            b'=' => self.sign(0),
            b'?' => self.sign(UNKNOWN),
            b'!' => self.sign(INVALID),
            b'/' => self.marks(),
            b')' | b'\0' => {}
            _ => self.named(c),
        }
    }

    fn digit(&mut self, d: u8) {
        self.number = self.number % 0x1000_0000 * 16 + d as usize;
        self.named(b'0');
    }

    fn sign(&mut self, number: u16) {
        self.at = self.number;
        self.number = number as usize;
    }

    // A / that begins a word is its name; behind a value it leads up to the marks, and the value stays above what is read there.
    fn marks(&mut self) {
        match self.name {
            None => self.name = Some(b'/'),
            Some(_) => self.number = self.number % 256 + 256,
        }
    }

    fn named(&mut self, c: u8) {
        let _ = self.name.get_or_insert(c);
    }

    // The byte that it is, where it is one.
    pub fn byte(&self) -> u8 {
        (self.number % 256) as u8
    }

    // The code of `lamps` that it sets, for a fact whose bits have these marks: 09/F6 is the value and the marks, 09 a value of which all is known, and !
    // a 1 without a mark.
    pub fn lamps(&self, full: u8) -> u16 {
        let [.., before, last] = self.number.to_be_bytes();
        match self.number {
            0..256 => u16::from_be_bytes([full, last]),
            256..65536 => last as u16,
            _ => u16::from_be_bytes([last, before]),
        }
    }

    // The number that it sets, of a fact that is known as a whole: a byte, or more than one.
    pub fn code(&self) -> u16 {
        (self.number % 65536) as u16
    }
}
