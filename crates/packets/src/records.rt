// The records of a packet.
ghost use Rattle.std.specs.Prelude.{◌+◌, ◌≤◌, ◌≡◌, length, drop};
ghost use Rattle.packets.specs.Takes.{taking, ReadsRow};

use crate::walked::panel_walk;
use account_ends::{Ended, settled};
use answers::Answer;
use feed::Feed;
use panel::Panel;
use terms::Part;

// The answer, and what is kept of the panel after the packet.
#[derive(Clone, Copy)]
pub struct Taken {
    pub answer: Answer,
    pub feed: Feed,
}

// The records of a packet from a place on, none of them begun before it.
pub fn read_from(part: Part, panel: Panel, total: u32, packet: &[u8], from: usize) -> Taken
    requires { (from ≤ length packet.now) × (total + length packet.now ≤ 4294967295) }
    ensures { ReadsRow part panel (total + from) total (total + length packet.now) (drop from packet.now) result }
{
    let walked = panel_walk(part, panel, &packet[from..]);
    let ending = walked.ending;
    let after = walked.k;
    with_panel(after, settled(total, packet, from, ending))
}

// The account after a packet, with the panel's knowledge.
pub fn with_panel(panel: Panel, ended: Ended) -> Taken
    ensures { result ≡ taking panel ended }
{
    Taken {
        answer: ended.answer,
        feed: Feed {
            panel,
            account: ended.account,
        },
    }
}
