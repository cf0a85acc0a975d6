// Where the tail of a recording starts, event by event.
#![tactic(auto)]

ghost use Rattle.std.specs.Prelude.{◌≡◌};
ghost use Rattle.recording.specs.Walk.{on_gap};

use terms::Event;

// Behind a gap the tail starts anew.
pub fn behind(event: Event, here: usize, before: usize) -> usize
    ensures { result ≡ on_gap event here before }
{
    match event {
        Event::Gap => here,
        _ => before,
    }
}
