// Rows of codes, in words. Of a fact that is known bit by bit `full` has the marks of a byte of which every bit is known.
use std::fmt;

// A code: its value where every bit of it is known, ?? where none is, and else its values and its marks, 12/F6.
#[derive(Clone, Copy)]
pub struct Lamps {
    pub code: u16,
    pub full: u8,
}

impl fmt::Display for Lamps {
    fn fmt<W: fmt::Write>(&self, f: &mut fmt::Formatter<W>) -> fmt::Result {
        let [marks, values] = self.code.to_be_bytes();
        if self.code == 0 {
            f.write_str("??")
        } else if marks == self.full {
            write!(f, "{values:02X}")
        } else {
            write!(f, "{values:02X}/{marks:02X}")
        }
    }
}

// A row, in which neighbours that are the same stand together so that lines stay short: the place of the first, that of the last one where it is another, and
// the code.
#[derive(Clone, Copy)]
pub struct Runs<'a> {
    pub codes: &'a [u16],
    pub full: u8,
}

impl fmt::Display for Runs<'_> {
    fn fmt<W: fmt::Write>(&self, f: &mut fmt::Formatter<W>) -> fmt::Result {
        let full = self.full;
        let mut from = 0usize;
        for run in self.codes.chunk_by(|a, b| a == b) {
            let next = from.saturating_add(run.len());
            write!(f, " {from:02X}")?;
            if run.len() > 1 {
                write!(f, "-{:02X}", next - 1)?;
            }
            write!(f, "={}", Lamps { code: run[0], full })?;
            from = next;
        }
        Ok(())
    }
}

// Key bytes, with a space before each. A code below 256 is its value, 256 is unknown, and any other is what no knowledge may hold.
#[derive(Clone, Copy)]
pub struct Keys<'a>(pub &'a [u16]);

impl fmt::Display for Keys<'_> {
    fn fmt<W: fmt::Write>(&self, f: &mut fmt::Formatter<W>) -> fmt::Result {
        for code in self.0 {
            match *code {
                0..256 => write!(f, " {code:02X}")?,
                256 => f.write_str(" ??")?,
                _ => f.write_str(" !!")?,
            }
        }
        Ok(())
    }
}
