// A packet, behind the tests.
ghost use Rattle.std.specs.Prelude.{◌+◌, ◌≤◌, ◌≡◌, length};
ghost use Rattle.terms.specs.Part.{part_of};
ghost use Rattle.account.specs.Bytes.{bytes_of, whole_of};
ghost use Rattle.account.specs.Begun.{Begun};
ghost use Rattle.feed.specs.Feed.{Good};
ghost use Rattle.packets.specs.Takes.{ReadsWith, Reads, Takes};

use crate::records::{Taken, read_from, with_panel};
use crate::walked::panel_walk;
use account::{Account, count_of, joined, whole_of};
use begun_ends::{begun_refused, put_off};
use feed::{Feed, tried};
use panel::Panel;
use terms::Part;

// Test 1, then tests 2, the standing refusal and 4, then the records.
pub fn taken(part: u8, feed: Feed, packet: &[u8]) -> Taken
    ensures { Takes (part_of part) feed packet.now result }
{
    match Part::try_from(part) {
        Ok(part) => {
            match tried(part, feed, packet.len()) {
                Ok(()) => read(part, feed, packet),
                Err(answer) => Taken { answer, feed },
            }
        }
        Err(no_part) => Taken {
            answer: Err(no_part.into()),
            feed,
        },
    }
}

// Where a record was begun, it is with the packet still too short, or whole.
fn read(part: Part, feed: Feed, packet: &[u8]) -> Taken
    requires { (Good part feed) × (feed.account.total + length packet.now ≤ 4294967295) }
    ensures { Reads part feed packet.now result }
{
    let Feed { panel, account } = feed;
    let count = count_of(account.unfinished);
    if count == 0 {
        return read_from(part, panel, account.total, packet, 0);
    }
    let from = whole_of(account.unfinished) - count;
    if packet.len() < from {
        return with_panel(panel, put_off(account, packet));
    }
    read_begun(part, panel, account, packet, from)
}

// The record that was begun is put together with the bytes that it still needs; the others are read where they stand.
fn read_begun(part: Part, panel: Panel, account: Account, packet: &[u8], from: usize) -> Taken
    requires { (Begun part (bytes_of account.unfinished) account.total) × (account.total + length packet.now ≤ 4294967295) × (length (bytes_of account.unfinished) + from ≡ whole_of (bytes_of account.unfinished)) × (from ≤ length packet.now) }
    ensures { ReadsWith part panel account.unfinished account.total packet.now result }
{
    let row = joined(account.unfinished, packet);
    let whole = whole_of(account.unfinished);
    let walked = panel_walk(part, panel, &row[..whole]);
    let ending = walked.ending;
    let after = walked.k;
    match ending {
        Ok(()) => read_from(part, after, account.total, packet, from),
        Err(stop) => with_panel(after, begun_refused(account, stop.refusal, stop.at)),
    }
}
