// Whether a temperature field is known to be dark (paper 02, M-103).
#![tactic(auto)]

ghost use Rattle.std.specs.Prelude.{◌≡◌};
ghost use Rattle.fact.specs.View.{stands};
ghost use Rattle.field.specs.Field.{in_use, reaches_past, is_dark};

use character_knowledge::{OFF, ON};
use fact::{Single, is_known};
use terms::Address;

pub fn is_dark(lights: Single<u8>, digits: Single<u8>, start: Address) -> bool
    ensures { result ≡ is_dark (stands lights) (stands digits) start.0 }
{
    if is_known(lights, OFF) {
        return true;
    }
    if is_known(lights, ON) {
        return true;
    }
    reaches_past(digits, start)
}

// The last cell stands on digit start plus 5.
fn reaches_past(digits: Single<u8>, start: Address) -> bool
    ensures { result ≡ reaches_past (stands digits) start.0 }
{
    match digits {
        Single::Known(code) => in_use(code) < start.0 as usize + 5,
        Single::Unknown => false,
    }
}

fn in_use(code: u8) -> usize
    ensures { result ≡ in_use code }
{
    if code == 0 { 16 } else { 8 + code as usize }
}
