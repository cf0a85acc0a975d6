// A change made to a row of codes, where the row stands. `wide` has the bits of the width, as `lamps` has them.
#![tactic(auto)]

ghost use Rattle.std.specs.Prelude.{ℕ, ◌<◌, length};
ghost use Rattle.lamps.specs.View.{Wide};
ghost use Rattle.changes.specs.Change.{Inside, Changes};
ghost use Rattle.changes.specs.declared.Change.TheVariants.{Put, Meet};

use changes::{Change, forget, meet};
use lamps::{code_of, put_byte};
use terms::Address;

pub fn apply(codes: &mut [u16], wide: u16, change: Change)
    requires { Inside (length codes.old) change }
    ensures { (w : ℕ) → Wide w wide → Changes w change codes.old codes.new }
{
    match change {
        Change::Keep => {}
        Change::Put(cell, byte) => put(codes, wide, cell, byte),
        Change::Meet(from, by, count, byte) => meet_all(codes, wide, from, by, count, byte),
        Change::Forget => forget(codes),
    }
}

// One code becomes known.
fn put(codes: &mut [u16], wide: u16, cell: Address, byte: u8)
    requires { cell.0 < length codes.old }
    ensures { (w : ℕ) → Wide w wide → Changes w (Put cell byte) codes.old codes.new }
{
    let i = cell.0 as usize;
    codes[i] = put_byte(wide, codes[i], byte);
}

// A byte may have gone to several codes.
fn meet_all(codes: &mut [u16], wide: u16, from: Address, by: u8, count: u8, byte: u8)
    requires { Inside (length codes.old) (Meet from by count byte) }
    ensures { (w : ℕ) → Wide w wide → Changes w (Meet from by count byte) codes.old codes.new }
{
    let at = from.0 as usize;
    let c = code_of(wide, byte);
    // With the stride 1 written out the compiler goes over several codes at once: 36 of them take 46 instructions, and 449 with the stride left open.
    if by == 1 {
        meet(codes, wide, at, 1, count as usize, c);
    } else {
        meet(codes, wide, at, by as usize, count as usize, c);
    }
}
