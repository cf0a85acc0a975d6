// What a packet is refused for before its first record: test 2 of the knowledge and of the account, and what follows it.
ghost use Rattle.rules.specs.Tests.{Tests};
ghost use Rattle.feed.specs.Feed.{Good};
ghost use Rattle.feed.specs.Tests.{Tries};

use crate::Feed;
use account_fair::is_fair;
use account_tests::admitted;
use answers::{Answer, Refused};
use panel_ranges::in_range;
use terms::{Part, Place};

pub fn tried(part: Part, feed: Feed, length: usize) -> Result<(), Answer>
    ensures { Tries part feed length result }
{
    if is_good(part, feed) {
        admitted(feed.account, length)
    } else {
        Err(Err(Refused::OutOfRange(Place(0))))
    }
}

// Number 2 is for a state that is not good.
pub fn is_good(part: Part, feed: Feed) -> bool
    ensures { Tests result (Good part feed) }
{
    in_range(part, &feed.panel) && is_fair(part, feed.account)
}
