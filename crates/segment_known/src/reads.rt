// What a byte clocked out makes of a knowledge: only the read count goes on.
ghost use Rattle.std.specs.Prelude.{◌≡◌};
ghost use Rattle.rules.specs.Rule.{look};
ghost use Rattle.segment.specs.Family.{sizes};
ghost use Rattle.segment.specs.Fact.{position};
ghost use Rattle.segment.specs.Move.{byte_out};
ghost use Rattle.fact.specs.View.{stands};
ghost use Rattle.segment_steps.specs.Step.{Keeps};
ghost use Rattle.segment_known.specs.Reads.{counts, mode_out, count_out};

use fact::{Single, both};
use segment::Family;
use segment_knowledge::{Control, OPEN, READ_KEYS};

pub fn byte_out(family: Family, c: Control) -> Control
    ensures { Keeps (sizes family) (look position byte_out) c result }
{
    let position = c.position;
    let data = c.data;
    let old = c.count;
    let count = count_out(position, data, old);
    Control { count, ..c }
}

// The read count goes on while the chip is open. Where the position is unknown, it may have gone on or not.
fn count_out(position: Single<u8>, data: Single<u8>, count: Single<u8>) -> Single<u8>
    ensures { stands result ≡ count_out (stands position) (stands «data») (stands count) }
{
    match position {
        Single::Known(place) => match place {
            OPEN => mode_out(data, count),
            _ => count,
        },
        Single::Unknown => both(count, mode_out(data, count)),
    }
}

// The same while it is open: in a read mode it goes on, and where the mode is unknown, it may have gone on or not.
fn mode_out(data: Single<u8>, count: Single<u8>) -> Single<u8>
    ensures { stands result ≡ mode_out (stands «data») (stands count) }
{
    match data {
        Single::Known(mode) => {
            if mode < READ_KEYS {
                count
            } else {
                counted_up(count)
            }
        }
        Single::Unknown => both(count, counted_up(count)),
    }
}

fn counted_up(count: Single<u8>) -> Single<u8>
    ensures { stands result ≡ counts (stands count) }
{
    match count {
        Single::Known(n) => {
            let more = if n < 4 { n + 1 } else { 4 };
            Single::Known(more)
        }
        Single::Unknown => count,
    }
}
