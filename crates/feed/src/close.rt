// Closing: what the recording comes to if no more packets follow. It changes nothing.
ghost use Rattle.terms.specs.Part.{part_of};
ghost use Rattle.feed.specs.Close.{Closes, ClosesPart};

use crate::Feed;
use crate::tests::is_good;
use account_tests::closing;
use answers::{Answer, Refused};
use terms::{Part, Place};

pub fn closed(part: u8, feed: Feed) -> Answer
    ensures { Closes (part_of part) feed result }
{
    closed_by(Part::try_from(part)?, feed)
}

fn closed_by(part: Part, feed: Feed) -> Answer
    ensures { ClosesPart part feed result }
{
    if is_good(part, feed) {
        closing(feed.account)
    } else {
        Err(Refused::OutOfRange(Place(0)))
    }
}
