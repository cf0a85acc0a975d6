// What the body of each kind is: how long, and which values are allowed.
ghost use Rattle.std.specs.Prelude.{◌≡◌};
ghost use Rattle.recording.specs.Record.{body_of, bits_allowed, switches_allowed, fourth_allowed};

use terms::Part;

// A hexadecimal digit for each kind below 16, that of kind 0 last: the length of its body, 4 for 07 and 1 for 03, 06 and 08.
const LENGTHS: u64 = 0x0000_0001_4100_1000;

// One look for any kind. The digits are a number, which stands in a register; an array would be copied at every call.
pub fn body_of(kind: u8) -> u8
    ensures { result ≡ body_of kind }
{
    if kind >= 16 {
        return 0;
    }
    let digits = LENGTHS >> (kind * 4);
    (digits % 16) as u8
}

pub fn bits_allowed(bits: u8) -> bool
    ensures { result ≡ bits_allowed bits }
{
    0 < bits && bits < 8
}

pub fn switches_allowed(value: u8) -> bool
    ensures { result ≡ switches_allowed value }
{
    value < 16
}

pub fn fourth_allowed(part: Part, byte: u8) -> bool
    ensures { result ≡ fourth_allowed part byte }
{
    match part {
        Part::Pt6302 => true,
        Part::Pt6312 => byte == 0,
        Part::Pt6315 => true,
    }
}
