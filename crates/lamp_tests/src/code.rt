// Number 2 of one code.
ghost use Rattle.std.specs.Prelude.{ℕ, eqb};
ghost use Rattle.rules.specs.Tests.{Tests};
ghost use Rattle.knowing.specs.Standing.{Within};
ghost use Rattle.lamps.specs.View.{shown, Wide};

// The bits of a code that number 2 rules out: those past the width, and the values where there is no mark. It is a number, so that those of a whole row can
// be gathered without a branch.
pub fn wrong_bits(wide: u16, code: u16) -> u16
    ensures { (w : ℕ) → Wide w wide → Tests (eqb result 0) ((k : ℕ) → Within 2 (shown w code k)) }
{
    let past = code ^ (code & wide);
    let low = code & 255;
    let unmarked = low ^ (low & (code >> 8));
    past | unmarked
}

pub fn lamps_sound(wide: u16, code: u16) -> bool
    ensures { (w : ℕ) → Wide w wide → Tests result ((k : ℕ) → Within 2 (shown w code k)) }
{
    wrong_bits(wide, code) == 0
}
