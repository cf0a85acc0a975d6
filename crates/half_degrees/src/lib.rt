// Half degrees as floating degrees, exactly, and back.
#![tactic(auto)]

ghost use Rattle.std.specs.Prelude.{◌≡◌, false};
ghost use Rattle.std.specs.Float.Ieee.Exact.{HasValue};
ghost use Rattle.half_degrees.specs.Half.{signed, InHalves, Halved, Counted};

// Half degrees: below nought or not, and how many.
#[derive(Clone, Copy, Debug, PartialEq, Eq)]
pub struct Halves {
    pub negative: bool,
    pub size: u8,
}

// So many half degrees as degrees. Minus nought is plain nought, which taking from nought makes of itself.
pub fn degrees(halves: Halves) -> f32
    ensures { InHalves result (signed halves.negative halves.size) }
{
    let size = halves.size as f32 * 0.5;
    if halves.negative { 0.0 - size } else { size }
}

// The sign of a float that is some half degrees, and how many it is.
// Each function asks for `Half.Halved` by itself: it is true of nought with either sign, so in two ways, and a type keeps only what is true in one.
pub fn halves_of(degrees: f32) -> Halves
    requires { Halved degrees }
    ensures { HasValue degrees result.negative result.size 2 }
{
    if degrees < 0.0 {
        return Halves {
            negative: true,
            size: doubled(0.0 - degrees),
        };
    }
    Halves {
        negative: false,
        size: doubled(degrees),
    }
}

// The double of a float that is some number of half degrees, none below nought.
fn doubled(size: f32) -> u8
    requires { Counted size }
    ensures { HasValue size false result 2 }
{
    (size * 2.0) as u8
}
