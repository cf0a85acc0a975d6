// Taking a packet, and closing. The state is lent, and neither does more than hand it on.
ghost use Rattle.terms.specs.Part.{part_of};
ghost use Rattle.feed.specs.Close.{Closes};
ghost use Rattle.packets.specs.Takes.{Takes};

use feed::{Answer, Feed, closed};
use packets::taken;

// Afterwards the state is what the packet leaves of it.
pub fn take(part: u8, feed: &mut Feed, packet: &[u8]) -> Answer
    ensures { Takes (part_of part) feed.old packet.now (record { answer = result; feed = feed.new }) }
{
    let taken = taken(part, *feed, packet);
    *feed = taken.feed;
    taken.answer
}

// The state is left as it was, and packets may follow.
pub fn close(part: u8, feed: &Feed) -> Answer
    ensures { Closes (part_of part) feed.now result }
{
    closed(part, *feed)
}
