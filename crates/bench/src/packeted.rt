// A round in packets.
ghost use Rattle.std.specs.Prelude.{◌<◌};
ghost use Rattle.bench.specs.Rounds.{InPackets};

use feed::{closed, opened};
use packets::taken;
use panel::Panel;
use replay::Replayed;

// The last packet has what is left, so that an empty recording is one empty packet, where `chunks` would give none.
pub fn in_packets(size: usize, part: u8, start: Panel, recording: &[u8]) -> Replayed
    requires { 0 < size }
    ensures { InPackets size part start recording.now result }
{
    let mut feed = opened(start);
    let mut left = recording;
    while size < left.len() {
        let (packet, behind) = left.split_at(size);
        let taken = taken(part, feed, packet);
        feed = taken.feed;
        left = behind;
    }
    let last = taken(part, feed, left);
    let after = last.feed;
    let answer = closed(part, after);
    let panel = after.panel;
    Replayed { answer, panel }
}
