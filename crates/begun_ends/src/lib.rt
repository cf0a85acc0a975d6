// What becomes of the account where a record was begun in an earlier packet: it is still not whole, or it is refused.
#![tactic(auto)]

ghost use Rattle.std.specs.Prelude.{◌+◌, ◌≤◌, ◌≡◌, ◌++◌, length};
ghost use Rattle.account.specs.Bytes.{bytes_of, first_place};
ghost use Rattle.account_ends.specs.Ended.{Goes, halted};

use account::{Account, count_of, held, joined};
use account_ends::{Ended, halts, went_on};
use recording::Refusal;
use terms::Place;

// The record that was begun is still not whole: all its bytes are kept.
pub fn put_off(account: Account, packet: &[u8]) -> Ended
    requires { (length (bytes_of account.unfinished) + length packet.now ≤ 4) × (account.total + length packet.now ≤ 4294967295) }
    ensures { Goes (account.total + length packet.now) (bytes_of account.unfinished ++ packet.now) result }
{
    let row = joined(account.unfinished, packet);
    let all = count_of(account.unfinished) + packet.len();
    went_on(held(&row[..all]), account.total as usize + packet.len())
}

// The record that was begun is refused; it starts where its first byte stood, and the refusal points `at.0` bytes behind that.
pub fn begun_refused(account: Account, refusal: Refusal, at: Place) -> Ended
    requires { (length (bytes_of account.unfinished) ≤ account.total) × (at.0 ≤ 4) }
    ensures { result ≡ halted account.total refusal (first_place account.unfinished account.total + at.0) }
{
    let before = account.total as usize;
    let first = before - count_of(account.unfinished);
    let place = first + at.0;
    halts(before, refusal, place)
}
