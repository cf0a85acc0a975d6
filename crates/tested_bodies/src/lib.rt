// The records whose body values are tested, read as code: 06, 07 and 08, which number 8 is about. The place is within the bytes, and its kind is known.
#![tactic(auto)]

ghost use Rattle.std.specs.Prelude.{◌≡◌, ◌<◌, length, get_or, drop};
ghost use Rattle.terms.specs.declared.Part.{Part};
ghost use Rattle.recording.specs.Record.{front};

use recording::{
    Record, Refusal, bits_allowed, fourth_allowed, has_keys, has_switches, switches_allowed,
};
use terms::{Event, Part};

// A record of 06, on any part.
pub fn unfinished(bytes: &[u8], i: usize) -> Result<Record, Refusal>
    requires { (i < length bytes.now) × (get_or bytes.now i 0 ≡ 6) }
    ensures { (p : Part) → result ≡ front p (drop i bytes.now) }
{
    let bits = *bytes.get(i + 1).ok_or(Refusal::CutShort)?;
    if !bits_allowed(bits) {
        return Err(Refusal::Forbidden);
    }
    Ok(Record {
        event: Event::Unfinished(bits),
        length: 2,
    })
}

// A record of 07.
pub fn keys(part: Part, bytes: &[u8], i: usize) -> Result<Record, Refusal>
    requires { (i < length bytes.now) × (get_or bytes.now i 0 ≡ 7) }
    ensures { result ≡ front part (drop i bytes.now) }
{
    if !has_keys(part) {
        return Err(Refusal::Foreign);
    }
    let fourth = *bytes.get(i + 4).ok_or(Refusal::CutShort)?;
    if !fourth_allowed(part, fourth) {
        return Err(Refusal::Forbidden);
    }
    Ok(Record {
        event: Event::Keys(bytes[i + 1], bytes[i + 2], bytes[i + 3], fourth),
        length: 5,
    })
}

// A record of 08.
pub fn switches(part: Part, bytes: &[u8], i: usize) -> Result<Record, Refusal>
    requires { (i < length bytes.now) × (get_or bytes.now i 0 ≡ 8) }
    ensures { result ≡ front part (drop i bytes.now) }
{
    if !has_switches(part) {
        return Err(Refusal::Foreign);
    }
    let value = *bytes.get(i + 1).ok_or(Refusal::CutShort)?;
    if !switches_allowed(value) {
        return Err(Refusal::Forbidden);
    }
    Ok(Record {
        event: Event::Switches(value),
        length: 2,
    })
}
