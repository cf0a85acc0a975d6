// The bytes of a record that has not come in whole.
ghost use Rattle.std.specs.Prelude.{◌≤◌, ◌≡◌, ◌++◌, length, get_or};
ghost use Rattle.account.specs.Bytes.{bytes_of, row_of, first_five, whole_of};

use recording::body_of;

// At most four, since the longest record has five.
#[derive(Clone, Copy, Debug, PartialEq, Eq)]
pub enum Unfinished {
    None,
    One(u8),
    Two(u8, u8),
    Three(u8, u8, u8),
    Four(u8, u8, u8, u8),
}

pub fn count_of(unfinished: Unfinished) -> usize
    ensures { result ≡ length (bytes_of unfinished) }
{
    match unfinished {
        Unfinished::None => 0,
        Unfinished::One(_) => 1,
        Unfinished::Two(_, _) => 2,
        Unfinished::Three(_, _, _) => 3,
        Unfinished::Four(_, _, _, _) => 4,
    }
}

// The bytes, and noughts behind them.
pub fn row_of(unfinished: Unfinished) -> [u8; 4]
    ensures { result ≡ row_of (bytes_of unfinished) }
{
    match unfinished {
        Unfinished::None => [0, 0, 0, 0],
        Unfinished::One(a) => [a, 0, 0, 0],
        Unfinished::Two(a, b) => [a, b, 0, 0],
        Unfinished::Three(a, b, c) => [a, b, c, 0],
        Unfinished::Four(a, b, c, d) => [a, b, c, d],
    }
}

// The length of the record that was begun.
pub fn whole_of(unfinished: Unfinished) -> usize
    ensures { result ≡ whole_of (bytes_of unfinished) }
{
    let row = row_of(unfinished);
    body_of(row[0]) as usize + 1
}

// Bytes kept for later.
pub fn held(bytes: &[u8]) -> Unfinished
    requires { length bytes.now ≤ 4 }
    ensures { bytes_of result ≡ bytes.now }
{
    match bytes {
        [] => Unfinished::None,
        [a] => Unfinished::One(*a),
        [a, b] => Unfinished::Two(*a, *b),
        [a, b, c] => Unfinished::Three(*a, *b, *c),
        [a, b, c, d, ..] => Unfinished::Four(*a, *b, *c, *d),
    }
}

// The unfinished bytes and the packet's first ones, as many as the longest record has, with noughts where there are no more.
pub fn joined(unfinished: Unfinished, packet: &[u8]) -> [u8; 5]
    ensures { result ≡ first_five (bytes_of unfinished ++ packet.now) }
{
    let p0 = byte_at(packet, 0);
    let p1 = byte_at(packet, 1);
    let p2 = byte_at(packet, 2);
    let p3 = byte_at(packet, 3);
    match unfinished {
        Unfinished::None => [p0, p1, p2, p3, byte_at(packet, 4)],
        Unfinished::One(a) => [a, p0, p1, p2, p3],
        Unfinished::Two(a, b) => [a, b, p0, p1, p2],
        Unfinished::Three(a, b, c) => [a, b, c, p0, p1],
        Unfinished::Four(a, b, c, d) => [a, b, c, d, p0],
    }
}

fn byte_at(bytes: &[u8], i: usize) -> u8
    ensures { result ≡ get_or bytes.now i 0 }
{
    bytes.get(i).copied().unwrap_or(0)
}
