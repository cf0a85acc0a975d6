// What is forgotten in a row of codes, where the row stands. `wide` has the bits of the width, as `lamps` has them.
ghost use Rattle.std.specs.Prelude.{◌≡◌, true, ℕ, ◌+◌, ◌*◌, ◌<◌, length};
ghost use Rattle.knowing.specs.Standing.{unknown};
ghost use Rattle.lamps.specs.View.{held, met, Wide};
ghost use Rattle.changes.specs.Change.{Changes, Met};
ghost use Rattle.changes.specs.declared.Change.TheVariants.{Meet};

use lamps::{EIGHT, code_of, meet_code};
use terms::Address;

// What the code `c` says may have gone to any of these codes: `count` of them, from `from` on, one in `by`. Each keeps what it has in common with `c`, which
// may be what a whole run of bytes has in common, so that one loop does for the run.
pub fn meet(codes: &mut [u16], wide: u16, from: usize, by: usize, count: usize, c: u16)
    requires { (0 < by) × ((i : ℕ) → i < count → from + by * i < length codes.old) }
    ensures { Met wide c codes.old from by count codes.new }
{
    for i in 0..count {
        let at = from + by * i;
        codes[at] = meet_code(wide, codes[at], c);
    }
}

// A byte may have gone to this code.
pub fn meet_one(codes: &mut [u16], wide: u16, cell: Address, byte: u8)
    requires { cell.0 < length codes.old }
    ensures { (w : ℕ) → Wide w wide → Changes w (Meet cell 1 1 byte) codes.old codes.new }
{
    let i = cell.0 as usize;
    codes[i] = meet_code(wide, codes[i], code_of(wide, byte));
}

// No code says anything any more.
pub fn forget(codes: &mut [u16])
    ensures { (w i k : ℕ) → held w codes.new i k ≡ unknown }
{
    codes.fill(0);
}

// Every bit of eight that is known of a code is that of the byte, so that wherever the byte went, it changes none. The loop stops nowhere, so that it can go over several codes at once.
pub fn all_agree(codes: &[u16], byte: u8) -> bool
    ensures { result ≡ true → (i k : ℕ) → held 8 codes.now i k ≡ met 8 byte k (held 8 codes.now i k) }
{
    let c = code_of(EIGHT, byte);
    let mut agree = true;
    for code in codes {
        agree &= meet_code(EIGHT, *code, c) == *code;
    }
    agree
}
