// The rounds, each from the same start.
ghost use Rattle.std.specs.Prelude.{◌≡◌};
ghost use Rattle.terms.specs.Part.{part_of};
ghost use Rattle.checksum.specs.Panels.{part_sum};
ghost use Rattle.bench.specs.Rounds.{Summed};

use crate::packeted::in_packets;
use checksum::{Sum, answer_in, panel_in};
use panel::Panel;
use replay::{Replayed, replay};
use terms::{Part, Place};

// What a round ends with stays where it is put, and the start is lent to each round as it is, so that no copy is measured that a caller would not make.
pub fn summed(rounds: usize, size: usize, part: u8, start: Panel, recording: &[u8]) -> Sum
    ensures { Summed size part start recording.now rounds result.0 }
{
    let mut sum = Sum(0);
    let mut last = Replayed {
        answer: Ok(Place(0)),
        panel: start,
    };
    for _round in 0..rounds {
        if size == 0 {
            last = replay(part, start, recording, Place(0));
        } else {
            last = in_packets(size, part, start, recording);
        }
        let answer = last.answer;
        sum = answer_in(sum, answer);
    }
    known_in(sum, part, last.panel)
}

// The checksum with what is known of the part.
fn known_in(sum: Sum, part: u8, panel: Panel) -> Sum
    ensures { result.0 ≡ part_sum sum.0 (part_of part) panel }
{
    match Part::try_from(part) {
        Ok(part) => panel_in(sum, part, panel),
        Err(_) => sum,
    }
}
