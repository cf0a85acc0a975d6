// A panel whose recording comes in packets: what is kept of it between two, the tests that come before a packet's records, and closing.
#![tactic(auto)]

mod close;
mod tests;

ghost use Rattle.std.specs.Prelude.{◌≡◌};
ghost use Rattle.feed.specs.Feed.{opening};

pub use account::{Account, Unfinished};
pub use answers::{Answer, Refused};
pub use close::closed;
use panel::Panel;
pub use tests::tried;

// The knowledge after the last good record, and what is kept of the recording.
#[derive(Clone, Copy)]
pub struct Feed {
    pub panel: Panel,
    pub account: Account,
}

// Before the first packet, from any knowledge.
pub fn opened(panel: Panel) -> Feed
    ensures { result ≡ opening panel }
{
    Feed {
        panel,
        account: Account {
            unfinished: Unfinished::None,
            total: 0,
            kept: None,
        },
    }
}
