// Where the tail is: tests 1 and 4, then the records.
ghost use Rattle.std.specs.Prelude.{◌≡◌};
ghost use Rattle.terms.specs.Part.{part_of};
ghost use Rattle.tail.specs.Tail.{found, found_part};

use crate::gaps::{Found, walk_gaps};
use answers::Refused;
use terms::{Part, Place};

pub fn find_tail(part: u8, recording: &[u8]) -> Found
    ensures { result ≡ found (part_of part) recording.now }
{
    match Part::try_from(part) {
        Ok(part) => find_in(part, recording),
        Err(no_part) => Found::refused(no_part.into()),
    }
}

fn find_in(part: Part, recording: &[u8]) -> Found
    ensures { result ≡ found_part part recording.now }
{
    if 65535 < recording.len() {
        return Found::refused(Refused::TooLong(Place(0)));
    }
    walk_gaps(part, recording)
}
