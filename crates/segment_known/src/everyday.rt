// The events of every day, each in a function small enough to stand in the loop over the records: the strobe, and bytes whose way is known.
ghost use Rattle.std.specs.Prelude.{◌≡◌, Bool, true, ℕ, ◌+◌, ◌≤◌};
ghost use Rattle.knowing.specs.Standing.{known};
ghost use Rattle.fact.specs.View.{stands};
ghost use Rattle.changes.specs.Change.{Met};
ghost use Rattle.terms.specs.declared.Event.TheVariants.{Falls, Rises};
ghost use Rattle.segment.specs.declared.Sizes.{Sizes};
ghost use Rattle.segment.specs.Family.{sizes};
ghost use Rattle.rules.specs.Rule.{gives};
ghost use Rattle.rules.specs.Change.{keep};
ghost use Rattle.segment.specs.Move.{lights, move};
ghost use Rattle.segment.specs.declared.Position.TheVariants.{Open};
ghost use Rattle.segment.specs.Value.{at_position};
ghost use Rattle.segment_knowledge.specs.View.{points};
ghost use Rattle.segment_steps.specs.Step.{Keeps};
ghost use Rattle.segment_known.specs.Everyday.{Hits, HitsAt, PerhapsAt, ring, PerhapsLit, PerhapsStepped, Lost};
ghost use Rattle.segment_known.specs.Writes.{writing, pointing};

use changes::meet;
use fact::{Single, is_known};
use lamps::{EIGHT, FOUR, meet_code, put_byte};
use segment::{Family, Pointer};
use segment_knowledge::{
    Control, FIRST, IDLE, INCREMENT, OPEN, Pointing, WRITE_DISPLAY, WRITE_LED, at,
};
use terms::Address;

pub fn falls(c: Control) -> Control
    ensures { ((s : Sizes) → Keeps s (move s Falls) c result) × (stands result.position ≡ known 1) }
{
    at(c, FIRST)
}

pub fn rises(c: Control) -> Control
    ensures { (s : Sizes) → Keeps s (move s Rises) c result }
{
    at(c, IDLE)
}

// Where bytes go that are clocked in, as far as the events of every day ask.
#[derive(Clone, Copy)]
pub enum Target {
    // To this cell, and the next byte to the one behind it, round the ring.
    Cell(Address),
    // To any cell, or none.
    Anywhere,
    // To any cell, or to the LED, or nowhere.
    Perhaps,
    // To this cell, or to the LED, or nowhere.
    PerhapsCell(Address),
    // To the LED, or nowhere.
    PerhapsLed,
    // They change nothing.
    Nowhere,
    // To the LED.
    Led,
    Elsewhere,
}

pub fn goes_to(family: Family, c: Control) -> Target
    ensures { Hits (sizes family) c result }
{
    let position = c.position;
    match position {
        Single::Known(place) => match place {
            OPEN => goes_open(family, c),
            FIRST => Target::Elsewhere,
            _ => Target::Nowhere,
        },
        Single::Unknown => Target::Elsewhere,
    }
}

fn goes_open(family: Family, c: Control) -> Target
    requires { stands c.position ≡ known (at_position Open) }
    ensures { Hits (sizes family) c result }
{
    let data = c.data;
    match data {
        Single::Known(mode) => match mode {
            WRITE_DISPLAY => {
                let address = c.address;
                let stepping = c.stepping;
                goes_at(family, address, is_known(stepping, INCREMENT))
            }
            WRITE_LED => Target::Led,
            _ => Target::Nowhere,
        },
        Single::Unknown => {
            let address = c.address;
            perhaps_at(family, address)
        }
    }
}

// The data mode is unknown.
fn perhaps_at(family: Family, address: Pointing) -> Target
    ensures { PerhapsAt (sizes family) (points address) result }
{
    match address {
        Pointing::Known(Pointer::At(cell)) => {
            let sizes = family.sizes();
            if cell.0 < sizes.cells {
                Target::PerhapsCell(cell)
            } else {
                Target::Elsewhere
            }
        }
        Pointing::Known(Pointer::Invalid) => Target::PerhapsLed,
        Pointing::Unknown => Target::Perhaps,
    }
}

fn goes_at(family: Family, address: Pointing, counting: bool) -> Target
    ensures { HitsAt (sizes family) (points address) counting result }
{
    match address {
        Pointing::Known(Pointer::At(cell)) => {
            let sizes = family.sizes();
            if counting {
                if cell.0 < sizes.cells {
                    return Target::Cell(cell);
                }
            }
            Target::Elsewhere
        }
        Pointing::Known(Pointer::Invalid) => Target::Nowhere,
        Pointing::Unknown => Target::Anywhere,
    }
}

// So many bytes are stored from a cell on, up to the last one at most, and the next goes behind them.
pub fn counted_on(family: Family, c: Control, cell: Address, count: usize) -> Control
    requires { cell.0 + count ≤ (sizes family).cells }
    ensures { result ≡ pointing c (ring (sizes family) (cell.0 + count)) }
{
    let sizes = family.sizes();
    let next = cell.0 + count as u8;
    let to = if next < sizes.cells { next } else { 0 };
    Control {
        address: Pointing::Known(Pointer::At(Address(to))),
        ..c
    }
}

// Each of a run of bytes may have gone to any cell: each cell keeps what it has in common with what they have in common. Each part has a loop of its own, whose end
// is a number that the compiler knows, so that it leaves no cells over.
pub fn meets(family: Family, cells: &mut [u16; 36], code: u16)
    ensures { Met 65535 code cells.old 0 1 (sizes family).cells cells.new }
{
    match family {
        Family::Pt6312 => meet(cells, EIGHT, 0, 1, 22, code),
        Family::Pt6315 => meet(cells, EIGHT, 0, 1, 36, code),
    }
}

// The byte goes to the LED.
pub fn lit(mut c: Control, byte: u8) -> Control
    ensures { (s : Sizes) → Keeps s (gives (lights byte keep)) c result }
{
    let old = c.led;
    c.led = put_byte(FOUR, old, byte);
    c
}

// What the code says may have gone to the LED.
pub fn perhaps_lit(mut c: Control, code: u16) -> Control
    ensures { PerhapsLit code c result }
{
    let old = c.led;
    c.led = meet_code(FOUR, old, code);
    c
}

// The byte may have gone to that cell, and the address may have stepped on behind it.
pub fn perhaps_stepped(c: Control, cell: Address) -> Control
    ensures { PerhapsStepped cell.0 c result }
{
    let stepping = c.stepping;
    let address = match stepping {
        Single::Known(step) => match step {
            INCREMENT => Pointing::Unknown,
            _ => Pointing::Known(Pointer::At(cell)),
        },
        Single::Unknown => Pointing::Unknown,
    };
    Control { address, ..c }
}

// Nothing is left that a byte clocked in could change, where nothing is known of the cells: events were lost, and since then keys and switches may have been latched.
pub fn nothing_left(c: Control) -> bool
    ensures { result ≡ true → Lost c }
{
    matches!(
        c,
        Control {
            position: Single::Unknown,
            data: Single::Unknown,
            stepping: Single::Unknown,
            mode: Single::Unknown,
            dimming: Single::Unknown,
            display: Single::Unknown,
            count: Single::Unknown,
            address: Pointing::Unknown,
            led: 0,
            ..
        }
    )
}
