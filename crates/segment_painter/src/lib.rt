// The five strobes that paint a picture on PT6312 or PT6315.
#![tactic(auto)]

ghost use Rattle.std.specs.Prelude.{◌≡◌, ◌+◌, ◌*◌, ◌≤◌, ◌<◌, length, take};
ghost use Rattle.writing.specs.Wrote.{Wrote};
ghost use Rattle.segment.specs.Value.{shows};
ghost use Rattle.terms.specs.Event.{recording};
ghost use Rattle.painting.specs.Segment.{five_strobes};
ghost use Rattle.painting.specs.Answer.{segment_size, segment_stream, in_front};

use painting::SegmentPicture;
use segment::{Display, Family};
use strobes::{write_single, write_strobe};
use writing::Writer;

// Writes the painting to the front of `out`.
pub fn write(family: Family, picture: SegmentPicture, out: &mut [u8])
    requires { (picture.dimming < 8) × (segment_size family ≤ length out.old) }
    ensures { out.new ≡ in_front (segment_stream family picture) out.old }
{
    let sizes = family.sizes();
    let mode = picture.mode;
    let cells = picture.cells;
    let led = picture.led;
    let display = picture.display;
    let control = control_of(picture.dimming, display);
    let mut w = Writer { out, at: 0 };
    write_five(&mut w, mode, cells, sizes.cells, led, control);
}

fn control_of(dimming: u8, display: Display) -> u8
    requires { dimming < 8 }
    ensures { result ≡ 0x80 + shows display * 8 + dimming }
{
    match display {
        Display::Off => 0x80 + dimming,
        Display::On => 0x88 + dimming,
    }
}

// The five strobes over the first `count` cells.
fn write_five(w: &mut Writer, mode: u8, cells: [u8; 36], count: u8, led: u8, control: u8)
    requires { count ≤ 36 }
    ensures { (Wrote w.old (recording (five_strobes mode (take count cells) led control)) w.new) × (length cells ≡ 36) }
{
    write_single(w, mode);
    write_single(w, 0x40);
    write_strobe(w, 0xC0, &cells[..count as usize]);
    write_strobe(w, 0x41, &[led]);
    write_single(w, control);
}
