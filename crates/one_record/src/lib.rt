// One record read, as code: the event at a place of a recording and its length, or why it is none. The records of every day are also told by a glance,
// which asks for no part and hands on no more than a walk needs.
#![tactic(auto)]

mod glance;

ghost use Rattle.std.specs.Prelude.{◌≡◌, ◌<◌, length, get_or, drop};
ghost use Rattle.terms.specs.declared.Part.{Part};
ghost use Rattle.recording.specs.Record.{front};

pub use glance::{Everyday, everyday_at};
use recording::{Record, Refusal, has_keys};
use terms::{Event, Part, Place};
use tested_bodies::{keys, switches, unfinished};

// The record that starts at a place within the bytes. Its kind is looked at once: an arm has the tests of its kind, in paper 01's order.
// It is put into each walk, since handing the record back takes as long as reading it.
#[inline(always)]
pub fn record_at(part: Part, bytes: &[u8], at: Place) -> Result<Record, Refusal>
    requires { at.0 < length bytes.now }
    ensures { result ≡ front part (drop at.0 bytes.now) }
{
    let i = at.0;
    let event = match bytes[i] {
        1 => Event::Power,
        2 => Event::Falls,
        3 => return byte_in(bytes, i),
        4 => Event::Rises,
        5 => Event::Gap,
        6 => return unfinished(bytes, i),
        7 => return keys(part, bytes, i),
        8 => return switches(part, bytes, i),
        9 if has_keys(part) => Event::ByteOut,
        9 => return Err(Refusal::Foreign),
        _ => return Err(Refusal::Unlisted),
    };
    // All these are without a body.
    Ok(Record { event, length: 1 })
}

// A record of 03, on any part.
fn byte_in(bytes: &[u8], i: usize) -> Result<Record, Refusal>
    requires { (i < length bytes.now) × (get_or bytes.now i 0 ≡ 3) }
    ensures { (p : Part) → result ≡ front p (drop i bytes.now) }
{
    let byte = *bytes.get(i + 1).ok_or(Refusal::CutShort)?;
    Ok(Record {
        event: Event::ByteIn(byte),
        length: 2,
    })
}
