// The facts of a PT6302 panel in the checksum.
ghost use Rattle.std.specs.Prelude.{◌≡◌};
ghost use Rattle.checksum.specs.Characters.{character_sum};

use crate::sum::Sum;
use character_knowledge::Knowledge;

pub fn all(sum: Sum, k: Knowledge) -> Sum
    ensures { result.0 ≡ character_sum sum.0 k }
{
    let dcram = k.dcram;
    let cgram = k.cgram;
    let adram = k.adram;
    let stored = sum.codes(&dcram).codes(&cgram).codes(&adram);
    let c = k.control;
    let dcram_at = c.dcram_at;
    let cgram_at = c.cgram_at;
    let adram_at = c.adram_at;
    let addressed = stored.fact(dcram_at).fact(cgram_at).fact(adram_at);
    let column = c.column;
    let port = c.port;
    let duty = c.duty;
    let digits = c.digits;
    let lights = c.lights;
    let position = c.position;
    addressed
        .fact(column)
        .take(port)
        .fact(duty)
        .fact(digits)
        .fact(lights)
        .fact(position)
}
