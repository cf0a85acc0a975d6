// The tail itself, as a part of the lent recording.
ghost use Rattle.std.specs.Prelude.{◌≡◌};
ghost use Rattle.terms.specs.Part.{part_of};
ghost use Rattle.tail.specs.Tail.{tail_of};

use crate::find::find_tail;

pub fn tail(part: u8, recording: &[u8]) -> &[u8]
    ensures { result.now ≡ tail_of (part_of part) recording.now }
{
    let found = find_tail(part, recording);
    let start = found.start.0;
    let end = found.end.0;
    &recording[start..end]
}
