// What each event makes of a knowledge.
ghost use Rattle.rules.specs.Rule.{gives};
ghost use Rattle.character.specs.Move.{powered, move};
ghost use Rattle.character_knowledge.specs.View.{Knows};
ghost use Rattle.character_steps.specs.Step.{Steps};
ghost use Rattle.character_known.specs.Together.{together, Sized};

use crate::bytes::byte_in;
use crate::everyday::{falls, rises};
use crate::rows::Rows;
use applying::apply;
use character_knowledge::{Control, IDLE, Knowledge, OFF, Pointing};
use character_steps::{Step, forgotten, kept, lost};
use fact::Single;
use lamps::{EIGHT, SEVEN, TWO, put_byte};
use terms::{Address, Event};

// What an event does, by what is known beside the memory. Keys, switches and bytes out are no events of this part, and change nothing.
fn step(mut c: Control, event: Event) -> Step
    ensures { Steps (move event) c result }
{
    match event {
        Event::Power => {
            return at_power(c);
        }
        Event::ByteIn(byte) => {
            return byte_in(c, byte);
        }
        Event::Gap => {
            return lost(c);
        }
        Event::Falls => c = falls(c),
        Event::Rises => c = rises(c),
        Event::Unfinished(_) => c = rises(c),
        Event::Keys(_, _, _, _) => {}
        Event::Switches(_) => {}
        Event::ByteOut => {}
    }
    kept(c)
}

fn at_power(c: Control) -> Step
    ensures { Steps (gives powered) c result }
{
    let old = c.port;
    let port = put_byte(TWO, old, 0);
    forgotten(Control {
        dcram_at: Pointing::Known(Address(0)),
        cgram_at: Pointing::Known(Address(0)),
        adram_at: Pointing::Known(Address(0)),
        column: Single::Known(0),
        port,
        duty: Single::Known(0),
        digits: Single::Known(0),
        lights: Single::Known(OFF),
        position: Single::Known(IDLE),
    })
}

// An event taken through a knowledge, whose rows are changed where they stand.
pub fn taken(c: Control, rows: &mut Rows, event: Event) -> Control
    ensures knows { Knows (move event) (together rows.old c) (together rows.new result) }
    ensures sized { Sized rows.new }
{
    let next = step(c, event);
    apply(&mut rows.dcram, EIGHT, next.dcram);
    apply(&mut rows.cgram, SEVEN, next.cgram);
    apply(&mut rows.adram, TWO, next.adram);
    next.control
}

// The knowledge after an event.
pub fn moved(k: Knowledge, event: Event) -> Knowledge
    ensures { Knows (move event) k result }
{
    let Knowledge {
        dcram,
        cgram,
        adram,
        control,
    } = k;
    let mut rows = Rows {
        dcram,
        cgram,
        adram,
    };
    let control = taken(control, &mut rows, event);
    rows.with(control)
}
