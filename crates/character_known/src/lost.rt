// Nothing at all is known, as behind a gap.
ghost use Rattle.std.specs.Prelude.{◌≡◌, true};
ghost use Rattle.knowing.specs.Standing.{unknown};
ghost use Rattle.character.specs.Fact.{Fact};
ghost use Rattle.character_knowledge.specs.View.{blank, cview, kview};
ghost use Rattle.character_known.specs.Ram.{Adrift, Gone};

use crate::astray::Astray;
use character_knowledge::Control;
use fact::Single;
use lamp_tests::none_known;

// The rows are lent one by one, since it asks nothing of their lengths.
pub fn nothing_known(c: Control, place: Astray, dcram: &[u16], cgram: &[u16], adram: &[u16]) -> bool
    requires { Gone c place }
    ensures { result ≡ true → (f : Fact) → kview (record { dcram = dcram.now; cgram = cgram.now; adram = adram.now; control = c }) f ≡ unknown }
{
    if let Astray::Anywhere = place {
        if nothing_left(c) {
            return none_known(dcram) & (none_known(cgram) & none_known(adram));
        }
    }
    false
}

// The same beside the memory.
fn nothing_left(c: Control) -> bool
    requires { Adrift c }
    ensures { result ≡ true → (f : Fact) → cview blank c f ≡ unknown }
{
    matches!(
        c,
        Control {
            duty: Single::Unknown,
            digits: Single::Unknown,
            lights: Single::Unknown,
            port: 0,
            ..
        }
    )
}
