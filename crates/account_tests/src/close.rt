// Closing, of an account that is fair: what the recording comes to if no more packets follow.
ghost use Rattle.std.specs.Prelude.{◌≤◌, length};
ghost use Rattle.account.specs.Bytes.{bytes_of};
ghost use Rattle.account_tests.specs.Close.{Ends};

use account::{Account, count_of};
use answers::{Answer, Refused};
use terms::Place;

// An unfinished record comes before a standing refusal.
pub fn closing(account: Account) -> Answer
    requires { length (bytes_of account.unfinished) ≤ account.total }
    ensures { Ends account result }
{
    let count = count_of(account.unfinished);
    let total = account.total as usize;
    if 0 < count {
        return Err(Refused::CutShort(Place(total - count)));
    }
    account.kept.unwrap_or(Ok(Place(total)))
}
