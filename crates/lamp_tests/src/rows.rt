// Rows of codes. Each loop looks at every code and stops at none, so that it can go over several codes at once.
ghost use Rattle.std.specs.Prelude.{◌≡◌, true, ℕ, ◌≤◌, length};
ghost use Rattle.rules.specs.Tests.{Tests};
ghost use Rattle.knowing.specs.Standing.{unknown};
ghost use Rattle.lamps.specs.View.{held, Wide};
ghost use Rattle.lamps.specs.Row.{LampsSound};

use crate::code::wrong_bits;

// Number 2 of the first `count` codes.
pub fn all_sound(codes: &[u16], count: usize, wide: u16) -> bool
    requires { count ≤ length codes.now }
    ensures { (w : ℕ) → Wide w wide → Tests result (LampsSound w codes.now count) }
{
    let mut wrong: u16 = 0;
    for code in &codes[..count] {
        wrong |= wrong_bits(wide, *code);
    }
    wrong == 0
}

// Every code is 0, and so nothing is known.
pub fn none_known(codes: &[u16]) -> bool
    ensures { result ≡ true → (w i k : ℕ) → held w codes.now i k ≡ unknown }
{
    let mut any: u16 = 0;
    for code in codes {
        any |= *code;
    }
    any == 0
}
