// A strobe in memory that has room for all of it, which is asked once and not at each byte.
ghost use Rattle.std.specs.Prelude.{◌≡◌, [], ◌∷◌, map, ◌+◌, ◌*◌, ◌≤◌, ◌<◌, length, set};
ghost use Rattle.std.proofs.lemmas.List.Edits.{sets};
ghost use Rattle.terms.specs.declared.Event.TheVariants.{ByteIn};
ghost use Rattle.terms.specs.Event.{recording, strobe};

// One byte at its place; the next place.
fn put(out: &mut [u8], at: usize, byte: u8) -> usize
    requires { at < length out.old }
    ensures { (result ≡ at + 1) × (out.new ≡ set out.old at byte) }
{
    out[at] = byte;
    at + 1
}

// One whole byte clocked in.
fn byte_in(out: &mut [u8], at: usize, byte: u8) -> usize
    requires { at + 2 ≤ length out.old }
    ensures { (result ≡ at + 2) × (out.new ≡ sets out.old at (3 ∷ byte ∷ [])) }
{
    let next = put(out, at, 3);
    put(out, next, byte)
}

fn bytes_in(out: &mut [u8], at: usize, bytes: &[u8]) -> usize
    requires { at + 2 * length bytes.now ≤ length out.old }
    ensures { (result ≡ at + 2 * length bytes.now)
        × (out.new ≡ sets out.old at (recording (map ByteIn bytes.now))) }
{
    let mut to = at;
    for byte in bytes {
        to = byte_in(out, to, *byte);
    }
    to
}

// A strobe with a first byte and those behind it; the place behind it.
pub fn strobe_at(out: &mut [u8], at: usize, first: u8, rest: &[u8]) -> usize
    requires { at + (2 * length rest.now + 4) ≤ length out.old }
    ensures { (result ≡ at + (2 * length rest.now + 4))
        × (out.new ≡ sets out.old at (recording (strobe (first ∷ rest.now)))) }
{
    let fallen = put(out, at, 2);
    let begun = byte_in(out, fallen, first);
    let done = bytes_in(out, begun, rest);
    put(out, done, 4)
}
