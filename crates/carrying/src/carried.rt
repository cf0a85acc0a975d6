// Whether a recording can carry an event: it is tested as its own record is. That record's kind is listed and its body whole, so the tests are
// those of 6 and 8.
ghost use Rattle.std.specs.Prelude.{◌≡◌};
ghost use Rattle.terms.specs.Event.{recorded};
ghost use Rattle.recording.specs.Record.{front};
ghost use Rattle.carrying.specs.Carried.{read_as, tested_as};

use recording::{bits_allowed, fourth_allowed, has_keys, has_switches, switches_allowed};
use terms::{Event, Part};

#[derive(Clone, Copy, Debug, PartialEq, Eq)]
pub enum Uncarried {
    // Number 6: the part has no such event.
    Foreign,
    // Number 8: a value that the event carries is not allowed.
    Forbidden,
}

pub fn carries(part: Part, event: Event) -> Result<(), Uncarried>
    ensures { front part (recorded event) ≡ read_as event result }
{
    match event {
        Event::Power | Event::Falls | Event::ByteIn(_) | Event::Rises | Event::Gap => Ok(()),
        Event::Unfinished(bits) => tested(true, bits_allowed(bits)),
        Event::Keys(_, _, _, fourth) => tested(has_keys(part), fourth_allowed(part, fourth)),
        Event::Switches(value) => tested(has_switches(part), switches_allowed(value)),
        Event::ByteOut => tested(has_keys(part), true),
    }
}

// 6 is looked at before 8.
fn tested(belongs: bool, allowed: bool) -> Result<(), Uncarried>
    ensures { result ≡ tested_as belongs allowed }
{
    if !belongs {
        return Err(Uncarried::Foreign);
    }
    if !allowed {
        return Err(Uncarried::Forbidden);
    }
    Ok(())
}
