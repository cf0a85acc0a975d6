// How a packet's records end, and what is kept then.
ghost use Rattle.std.specs.Prelude.{◌+◌, ◌≤◌, ◌≡◌, length, drop};
ghost use Rattle.account_ends.specs.Ended.{ByEnd, EndOf, went, halted};

use account::{Account, Unfinished, held};
use answers::{Answer, Refused};
use recording::{Refusal, Stop};
use terms::Place;

// The packet's answer, and the account after it.
#[derive(Clone, Copy, Debug, PartialEq, Eq)]
pub struct Ended {
    pub answer: Answer,
    pub account: Account,
}

// By how the walk over the packet's bytes from a place on has ended.
pub fn settled(total: u32, packet: &[u8], from: usize, ending: Result<(), Stop>) -> Ended
    requires { (from ≤ length packet.now) × (total + length packet.now ≤ 4294967295) × EndOf ending (drop from packet.now) }
    ensures { ByEnd ending (total + from) total (total + length packet.now) (drop from packet.now) result }
{
    let before = total as usize;
    let sum = before + packet.len();
    match ending {
        Ok(()) => went_on(Unfinished::None, sum),
        Err(Stop { refusal, at }) => {
            let inside = from + at.0;
            if let Refusal::CutShort = refusal {
                let unfinished = held(&packet[inside..]);
                return went_on(unfinished, sum);
            }
            halts(before, refusal, before + inside)
        }
    }
}

// Nothing is told against the packet: its bytes are counted, and those of a record that is not whole are kept.
pub fn went_on(unfinished: Unfinished, total: usize) -> Ended
    requires { total ≤ 4294967295 }
    ensures { result ≡ went unfinished total }
{
    Ended {
        answer: Ok(Place(total)),
        account: Account {
            unfinished,
            total: total as u32,
            kept: None,
        },
    }
}

// A record is refused: that stands from now on, and the total is what it was.
pub fn halts(total: usize, refusal: Refusal, at: usize) -> Ended
    requires { total ≤ 4294967295 }
    ensures { result ≡ halted total refusal at }
{
    let answer = Err(Refused::of(refusal, Place(at)));
    Ended {
        answer,
        account: Account {
            unfinished: Unfinished::None,
            total: total as u32,
            kept: Some(answer),
        },
    }
}
