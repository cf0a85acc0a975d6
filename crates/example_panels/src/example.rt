// A line of examples, but for its bytes.
use crate::bytes::Bytes;
use example_text::Word;

// What the lines of a section are about.
#[derive(Clone, Copy, PartialEq, Eq)]
pub enum Section {
    Events,
    Recordings,
    Packets,
    Updates,
    Temperatures,
}

// By the first letter of its name; any other is that of packets, and so are lines before the first name.
impl From<u8> for Section {
    fn from(letter: u8) -> Section {
        match letter {
            b'e' => Section::Events,
            b'r' => Section::Recordings,
            b'u' => Section::Updates,
            b't' => Section::Temperatures,
            _ => Section::Packets,
        }
    }
}

// What a line that is run begins with.
#[derive(Clone, Copy, PartialEq, Eq)]
pub enum Begins {
    PartByte,
    // With /: it is a packet.
    Packet,
}

#[derive(Clone, Copy)]
pub struct Example {
    pub section: Section,
    // The part byte, which holds for the packets behind its line, too.
    pub part: u8,
    // None where the line is not run, or nothing of it was read.
    pub begins: Option<Begins>,
    // Whether a name stands in it.
    pub worded: bool,
    // The number that begins with @.
    pub start: Option<usize>,
    // The word that begins with $.
    pub refusal: Option<Word>,
}

impl Example {
    // A line of which nothing was read, in a section and behind a part byte.
    pub fn new(section: Section, part: u8) -> Example {
        Example {
            section,
            part,
            begins: None,
            worded: false,
            start: None,
            refusal: None,
        }
    }

    // Reads one more word that ended. Before the part byte or /, a name is that of a section, and a remark, which begins with #, is one word and nothing.
    pub fn read<const ROOM: usize>(&mut self, word: Word, bytes: &mut Bytes<ROOM>) {
        if self.begins.is_some() {
            return self.read_behind(word, bytes);
        }
        match word.name {
            Some(b'0') => {
                self.part = word.byte();
                self.begins = Some(Begins::PartByte);
            }
            Some(b'/') => self.begins = Some(Begins::Packet),
            Some(letter @ b'a'..=b'z') => self.section = Section::from(letter),
            _ => {}
        }
    }

    fn read_behind<const ROOM: usize>(&mut self, word: Word, bytes: &mut Bytes<ROOM>) {
        match word.name {
            Some(b'0') => bytes.push(word.byte()),
            Some(b'*') => bytes.repeat(word.number),
            Some(b'(') => bytes.mark(),
            Some(b'@') => self.start = Some(word.number),
            Some(b'$') => self.refusal = Some(word),
            Some(b'a'..=b'z') => self.worded = true,
            _ => {}
        }
    }
}
