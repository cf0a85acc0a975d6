// Numbers and cells as text.
ghost use Rattle.std.specs.Prelude.{◌≡◌, ◌<◌};
ghost use Rattle.writing.specs.Wrote.{Wrote};
ghost use Rattle.text.specs.Text.{digit as text_digit, hex as text_hex, shown as text_shown, decimal as text_decimal};

use writing::Writer;

// A hex digit, in upper case, whose byte the contract fixes: a format of std would write it to what grows.
pub fn digit(n: u8) -> u8
    requires { n < 16 }
    ensures { result ≡ text_digit n }
{
    if n < 10 { b'0' + n } else { b'A' + (n - 10) }
}

// Two hex digits.
fn hex(w: &mut Writer, byte: u8)
    ensures { Wrote w.old (text_hex byte) w.new }
{
    w.put(digit(byte / 16));
    w.put(digit(byte % 16));
}

// A cell's two digits, or ?? where not all of its marks are set.
pub fn shown(w: &mut Writer, full: u8, code: u16)
    ensures { Wrote w.old (text_shown full code) w.new }
{
    if code / 256 == full as u16 {
        return hex(w, (code % 256) as u8);
    }
    w.words(b"??");
}

// A number in decimal. Not by `write!`, which is no plainer: it answers a `fmt::Result`, and a text that the memory's end cuts has nothing to refuse.
pub fn decimal(w: &mut Writer, n: usize)
    ensures { Wrote w.old (text_decimal n) w.new }
{
    let last = digit((n % 10) as u8);
    if n < 10 {
        return w.put(last);
    }
    decimal(w, n / 10);
    w.put(last);
}
