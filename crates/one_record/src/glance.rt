// The records of every day, told by a glance at their kind.
ghost use Rattle.std.specs.Prelude.{◌≡◌, ◌<◌, length, get_or};
ghost use Rattle.one_record.specs.Glance.{Shows};

use terms::Place;

#[derive(Clone, Copy)]
pub enum Everyday {
    // The strobe falls.
    Falls,
    // The strobe falls, and right behind that its first byte is clocked in: two records.
    Strobe(u8),
    Rises,
    ByteIn(u8),
    Gap,
    // Any other record, or none.
    Other,
}

pub fn everyday_at(bytes: &[u8], at: Place) -> Everyday
    requires { at.0 < length bytes.now }
    ensures { Shows bytes.now at.0 result }
{
    let i = at.0;
    let kind = bytes[i];
    match kind {
        2 => strobe_at(bytes, i),
        3 => {
            if bytes.len() - i < 2 {
                Everyday::Other
            } else {
                Everyday::ByteIn(bytes[i + 1])
            }
        }
        4 => Everyday::Rises,
        5 => Everyday::Gap,
        _ => Everyday::Other,
    }
}

fn strobe_at(bytes: &[u8], i: usize) -> Everyday
    requires { (i < length bytes.now) × (get_or bytes.now i 0 ≡ 2) }
    ensures { Shows bytes.now i result }
{
    if bytes.len() - i < 3 {
        return Everyday::Falls;
    }
    if bytes[i + 1] == 3 {
        return Everyday::Strobe(bytes[i + 2]);
    }
    Everyday::Falls
}
