// Number 2: whether every known value is in its fact's range, and every bit that is not known is stored as 0.
ghost use Rattle.knowing.specs.Standing.{Within, Sound};
ghost use Rattle.character.specs.Fact.{range};
ghost use Rattle.rules.specs.Tests.{Tests};
ghost use Rattle.character_knowledge.specs.View.{blank, cview, kview, points};
ghost use Rattle.character_ranges.specs.Ranges.{SinglesSound};

use character_knowledge::{Control, Knowledge};
use fact::within;
use lamp_tests::{all_sound, lamps_sound};
use lamps::{EIGHT, SEVEN, TWO};

pub fn sound(k: Knowledge) -> bool
    ensures { Tests result (Sound range (kview k)) }
{
    let dcram = k.dcram;
    let cgram = k.cgram;
    let adram = k.adram;
    let control = k.control;
    let texts = all_sound(&dcram, 16, EIGHT) & all_sound(&adram, 16, TWO);
    texts & all_sound(&cgram, 40, SEVEN) & singles_sound(control)
}

// The addresses, the column, the other settings and the position.
fn singles_sound(c: Control) -> bool
    ensures { Tests result (SinglesSound (cview blank c)) }
{
    let dcram_at = c.dcram_at;
    let cgram_at = c.cgram_at;
    let adram_at = c.adram_at;
    let column = c.column;
    let texts = within(dcram_at, 16) & within(adram_at, 16);
    let glyphs = within(cgram_at, 8) & within(column, 5);
    let port = c.port;
    let duty = c.duty;
    let digits = c.digits;
    let lights = c.lights;
    let position = c.position;
    let shown = lamps_sound(TWO, port) & within(duty, 8) & within(digits, 8) & within(lights, 3);
    texts & glyphs & shown & within(position, 6)
}
