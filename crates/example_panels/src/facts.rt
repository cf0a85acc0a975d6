// Single facts, in words.
use crate::rows::Lamps;
use fact::Single;
use std::{fmt, io};
use terms::Address;

// What is shown of a fact.
#[derive(Clone, Copy)]
pub enum Shown {
    Unknown,
    Invalid,
    Number(u8),
    Named(&'static str),
    // An address, in hex.
    Cell(Address),
    // Bits of which some are known, and not all.
    Bits(Lamps),
}

impl Shown {
    // A number that has no name.
    pub fn number(fact: Single<u8>) -> Shown {
        match fact {
            Single::Known(n) => Shown::Number(n),
            Single::Unknown => Shown::Unknown,
        }
    }

    // A number of which those from 0 on have names.
    pub fn named(fact: Single<u8>, names: &[&'static str]) -> Shown {
        match fact {
            Single::Known(n) => names
                .get(n as usize)
                .map_or(Shown::Number(n), |name| Shown::Named(*name)),
            Single::Unknown => Shown::Unknown,
        }
    }

    // A fact that is known bit by bit.
    pub fn bits(code: u16, full: u8) -> Shown {
        let [marks, values] = code.to_be_bytes();
        if code == 0 {
            Shown::Unknown
        } else if marks == full {
            Shown::Number(values)
        } else {
            Shown::Bits(Lamps { code, full })
        }
    }
}

impl fmt::Display for Shown {
    fn fmt<W: fmt::Write>(&self, f: &mut fmt::Formatter<W>) -> fmt::Result {
        match self {
            Shown::Unknown => f.write_str("unknown"),
            Shown::Invalid => f.write_str("invalid"),
            Shown::Number(n) => write!(f, "{n}"),
            Shown::Named(name) => f.write_str(name),
            Shown::Cell(address) => write!(f, "{:02X}", address.0),
            Shown::Bits(lamps) => write!(f, "{lamps}"),
        }
    }
}

// A fact, behind its title.
pub type Fact = (&'static str, Shown);

// Writes facts behind one another, each behind what leads up to it.
pub fn write_line(rt: &impl Print, facts: &[Fact]) -> io::Result<()> {
    let mut lead = "\n    ";
    for (title, shown) in facts {
        print!(rt; "{lead}{title} {shown}")?;
        lead = ", ";
    }
    Ok(())
}

// Writes those that are known, each behind a comma.
pub fn write_known(rt: &impl Print, facts: &[Fact]) -> io::Result<()> {
    for (title, shown) in facts {
        match shown {
            Shown::Unknown => {}
            _ => print!(rt; ", {title} {shown}")?,
        }
    }
    Ok(())
}
