// One code.
ghost use Rattle.std.specs.Prelude.{◌≡◌, ℕ, ltb};
ghost use Rattle.rules.specs.Choice.{whether};
ghost use Rattle.knowing.specs.Standing.{unknown};
ghost use Rattle.knowing.specs.Know.{join};
ghost use Rattle.knowing.specs.Holds.{holds};
ghost use Rattle.lamps.specs.View.{shown, Wide, OfByte, Puts, Meets};

// The bits of a width, in both bytes of a code: of a cell, a column, the LED, and a pair or the port.
pub const EIGHT: u16 = 0xFFFF;

pub const SEVEN: u16 = 0x7F7F;

pub const FOUR: u16 = 0x0F0F;

pub const TWO: u16 = 0x0303;

// What two codes have in common, bit by bit.
pub fn both_lamps(a: u16, b: u16) -> u16
    ensures { (w k : ℕ) → shown w result k ≡ join (shown w a k) (shown w b k) }
{
    let d = a ^ b;
    let e = d | (d << 8) | (d >> 8);
    a ^ (a & e)
}

// The code of a byte of which every bit of the width is known.
pub fn code_of(wide: u16, byte: u8) -> u16
    ensures { (w : ℕ) → Wide w wide → OfByte w byte result }
{
    (0xFF00 | (byte as u16)) & wide
}

// A code with every bit of the width known to be that of a byte.
pub fn put_byte(wide: u16, code: u16, byte: u8) -> u16
    ensures { Puts wide byte code result }
{
    (code ^ (code & wide)) | code_of(wide, byte)
}

// A code where what the code `c` says may have gone, be it one byte's code or what several have in common: a bit that both know alike stays known, and
// any other of the width is forgotten. A loop of this is what a byte at an unknown address costs, so it is written in as few steps as there can be.
pub fn meet_code(wide: u16, code: u16, c: u16) -> u16
    ensures { Meets wide c code result }
{
    let d = code ^ c;
    let e = d | (d << 8) | (d >> 8);
    (code ^ (code & wide)) | (c ^ (c & e))
}

// A code of eight bits, of which only those of a width are left.
pub fn cut(wide: u16, code: u16) -> u16
    ensures { (w : ℕ) → Wide w wide → (k : ℕ) → shown w result k ≡ whether (ltb k w) (shown 8 code k) unknown }
{
    code & wide
}

// This cell of eight bits is known to hold this byte: one function for all that asks this of a cell.
pub fn holds(code: u16, byte: u8) -> bool
    ensures { result ≡ holds 8 (shown 8 code) byte }
{
    code == code_of(EIGHT, byte)
}
