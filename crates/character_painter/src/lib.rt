// The seven strobes that paint a picture on PT6302.
#![tactic(auto)]

ghost use Rattle.std.specs.Prelude.{◌≡◌, ◌+◌, ◌≤◌, ◌<◌, length};
ghost use Rattle.writing.specs.Wrote.{Wrote};
ghost use Rattle.character.specs.Value.{lit};
ghost use Rattle.terms.specs.Event.{recording};
ghost use Rattle.painting.specs.Character.{four_settings};
ghost use Rattle.character_painter.specs.Seven.{rams_stream};
ghost use Rattle.painting.specs.Answer.{character_stream, in_front};

use character::Lights;
use painting::CharacterPicture;
use strobes::{write_single, write_strobe};
use writing::Writer;

// Writes the painting to the front of `out`.
pub fn write(picture: CharacterPicture, out: &mut [u8])
    requires { (picture.port < 4) × ((picture.duty < 8) × ((picture.digits < 8) × (172 ≤ length out.old))) }
    ensures { out.new ≡ in_front (character_stream picture) out.old }
{
    let dcram = picture.dcram;
    let cgram = picture.cgram;
    let adram = picture.adram;
    let lights = picture.lights;
    let mut w = Writer { out, at: 0 };
    write_rams(&mut w, dcram, cgram, adram);
    write_settings(&mut w, picture.port, picture.duty, picture.digits, lights);
}

// The three strobes of the RAMs.
fn write_rams(w: &mut Writer, dcram: [u8; 16], cgram: [u8; 40], adram: [u8; 16])
    ensures { (Wrote w.old (rams_stream dcram cgram adram) w.new)
        × ((length dcram ≡ 16) × ((length cgram ≡ 40) × (length adram ≡ 16))) }
{
    write_strobe(w, 0x10, &dcram);
    write_strobe(w, 0x20, &cgram);
    write_strobe(w, 0x30, &adram);
}

// The four strobes of the settings.
fn write_settings(w: &mut Writer, port: u8, duty: u8, digits: u8, lights: Lights)
    requires { (port < 4) × ((duty < 8) × (digits < 8)) }
    ensures { Wrote w.old (recording (four_settings port duty digits (lit lights))) w.new }
{
    write_single(w, 0x40 + port);
    write_single(w, 0x50 + duty);
    write_single(w, 0x60 + digits);
    write_single(w, lights_of(lights));
}

fn lights_of(lights: Lights) -> u8
    ensures { result ≡ 0x70 + lit lights }
{
    match lights {
        Lights::Normal => 0x70,
        Lights::Off => 0x71,
        Lights::On => 0x72,
    }
}
