// Recordings in packets.
//
// A line that begins with a part byte says what is kept before the first packet, and each line behind it that begins with / is a packet. Bytes behind a
// part byte are unfinished ones; four are taken. Everything is known unless words say otherwise: those of `events`, and
//     @FFFFFFFE   the total is FFFFFFFEH
//     $08=0003    number 8 at place 0003H stands as a refusal
//
// What is written behind a line is the answer to its packet; what is known then, as `recordings` has it; the unfinished bytes, the total and the standing
// refusal, if there are any; and the answer to closing then, which changes nothing.
use crate::in_words::answered;
use account::{count_of, held, joined};
use example_panels::{Begins, Example, write_known_panel};
use example_text::{Hex, Word};
use feed::{Account, Answer, Feed, Refused, Unfinished, closed};
use packets::taken;
use panel::Panel;
use std::io;
use terms::Place;

pub fn run(
    rt: &impl Print,
    example: &Example,
    feed: Feed,
    panel: Panel,
    bytes: &[u8],
) -> io::Result<Feed> {
    let after = match example.begins {
        Some(Begins::Packet) => takes(rt, example.part, feed, bytes)?,
        _ => begins(example, panel, bytes),
    };
    keeps(rt, example.part, after)?;
    Ok(after)
}

fn takes(rt: &impl Print, part: u8, feed: Feed, packet: &[u8]) -> io::Result<Feed> {
    let taken = taken(part, feed, packet);
    let answer = taken.answer;
    answered(rt, "\n    packet ", answer)?;
    Ok(taken.feed)
}

fn begins(example: &Example, panel: Panel, bytes: &[u8]) -> Feed {
    Feed {
        panel,
        account: Account {
            unfinished: unfinished_of(bytes),
            total: (example.start.unwrap_or(0) % 0x1_0000_0000) as u32,
            kept: kept_of(example.refusal),
        },
    }
}

fn unfinished_of(bytes: &[u8]) -> Unfinished {
    held(bytes.get(..4).unwrap_or(bytes))
}

fn kept_of(refusal: Option<Word>) -> Option<Answer> {
    refusal.map(|word| numbered(word.at, Place(word.number)))
}

// The answer of a number; 0 also for numbers that there are none of.
fn numbered(number: usize, place: Place) -> Answer {
    match number {
        1 => Err(Refused::NoPart(place)),
        2 => Err(Refused::OutOfRange(place)),
        3 => Err(Refused::BeyondEnd(place)),
        4 => Err(Refused::TooLong(place)),
        5 => Err(Refused::Unlisted(place)),
        6 => Err(Refused::Foreign(place)),
        7 => Err(Refused::CutShort(place)),
        8 => Err(Refused::Forbidden(place)),
        _ => Ok(place),
    }
}

fn keeps(rt: &impl Print, part: u8, feed: Feed) -> io::Result<()> {
    write_known_panel(rt, part, &feed.panel, false)?;
    shows(rt, feed.account.unfinished)?;
    print!(rt; ", total {}", feed.account.total)?;
    stands(rt, feed.account.kept)?;
    answered(rt, "\n    closing ", closed(part, feed))
}

fn shows(rt: &impl Print, unfinished: Unfinished) -> io::Result<()> {
    print!(rt; "\n    unfinished")?;
    match count_of(unfinished) {
        0 => print!(rt; " nothing"),
        count => row(rt, unfinished, count),
    }
}

fn row(rt: &impl Print, unfinished: Unfinished, count: usize) -> io::Result<()> {
    let row = joined(unfinished, b"");
    print!(rt; "{}", Hex(row.get(..count).unwrap_or(&row)))
}

fn stands(rt: &impl Print, kept: Option<Answer>) -> io::Result<()> {
    match kept {
        None => Ok(()),
        Some(answer) => answered(rt, ", standing ", answer),
    }
}
