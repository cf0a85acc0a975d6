// Words and numbers on standard output.
use std::io;

// What is anything: the names of the flags that are on.
pub fn flags(rt: &impl Print, flags: &[(&str, bool)]) -> io::Result<()> {
    print!(rt; "; anything:")?;
    for (name, on) in flags {
        if *on {
            print!(rt; " {name}")?;
        }
    }
    Ok(())
}

// A name, and the addresses and bytes of the cells that do not hold what all held before.
pub fn changed(rt: &impl Print, name: &str, cells: &[u8], before: u8) -> io::Result<()> {
    print!(rt; "{name}")?;
    for (at, byte) in cells
        .iter()
        .enumerate()
        .filter(|(_, byte)| **byte != before)
    {
        print!(rt; " {at:02x}={byte:02x}")?;
    }
    Ok(())
}
