// The walk that looks for gaps.
ghost use Rattle.std.specs.Prelude.{◌≡◌, Err};
ghost use Rattle.tail.specs.Tail.{none, found_in};

use answers::{Answer, Refused};
use one_record::record_at;
use pointing::place_of;
use recording::Record;
use tail_starts::behind;
use terms::{Part, Place};

// The answer, and where the tail starts and ends in the recording: refused, it is the empty part at the front.
#[derive(Clone, Copy)]
pub struct Found {
    pub answer: Answer,
    pub start: Place,
    pub end: Place,
}

impl Found {
    // The empty part at the front.
    pub fn refused(by: Refused) -> Found
        ensures { result ≡ none (Err by) }
    {
        Found {
            answer: Err(by),
            start: Place(0),
            end: Place(0),
        }
    }
}

// The place goes on by a record's length, which only reading it tells, so that no iterator of the library steps here.
pub fn walk_gaps(part: Part, bytes: &[u8]) -> Found
    ensures { result ≡ found_in part bytes.now }
{
    let mut start = 0;
    let mut i = 0;
    while i < bytes.len() {
        match record_at(part, bytes, Place(i)) {
            Ok(Record { event, length }) => {
                start = behind(event, i + 1, start);
                i += length;
            }
            Err(refusal) => {
                let at = place_of(refusal, bytes, Place(i));
                return Found::refused(Refused::of(refusal, at));
            }
        }
    }
    Found {
        answer: Ok(Place(i)),
        start: Place(start),
        end: Place(i),
    }
}
