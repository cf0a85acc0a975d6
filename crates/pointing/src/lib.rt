// Where a refusal points.
#![tactic(auto)]

ghost use Rattle.std.specs.Prelude.{◌≡◌, ◌+◌, ◌<◌, length, get_or};
ghost use Rattle.recording.specs.Record.{place_within};
ghost use Rattle.recording.specs.declared.Refusal.TheVariants.{Forbidden};
ghost use Rattle.recording.specs.Walk.{stop_of};

use recording::{Refusal, Stop};
use terms::Place;

// The place of a refusal, where the record that is none starts at the place `first`. The kind is looked at for every refusal: so compiled, a walk takes
// two to four instructions a record less than with the look in the last arm.
pub fn place_of(refusal: Refusal, bytes: &[u8], first: Place) -> Place
    requires { first.0 + place_within refusal (get_or bytes.now first.0 0) < length bytes.now }
    ensures { result ≡ record { 0 = first.0 + place_within refusal (get_or bytes.now first.0 0) } }
{
    let i = first.0;
    let fault = fault_of(bytes[i]);
    match refusal {
        Refusal::Unlisted => first,
        Refusal::Foreign => first,
        Refusal::CutShort => first,
        Refusal::Forbidden => Place(i + fault),
    }
}

// How a walk over records ends there.
pub fn stops_at(refusal: Refusal, bytes: &[u8], first: Place) -> Stop
    requires { first.0 + place_within refusal (get_or bytes.now first.0 0) < length bytes.now }
    ensures { result ≡ stop_of refusal (record { 0 = first.0 + place_within refusal (get_or bytes.now first.0 0) }) }
{
    let at = place_of(refusal, bytes, first);
    Stop { refusal, at }
}

// How far behind the kind the body byte at fault stands.
fn fault_of(kind: u8) -> usize
    ensures { result ≡ place_within Forbidden kind }
{
    match kind {
        7 => 4,
        _ => 1,
    }
}
