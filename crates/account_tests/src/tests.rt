// What a packet to a fair account is refused for before its first record: the standing refusal, and test 4.
ghost use Rattle.account_tests.specs.Tests.{Admits, Fitting};

use account::Account;
use answers::{Answer, Refused};
use terms::Place;

// The standing refusal comes before number 4. An error is the answer that is given, whichever was kept.
pub fn admitted(account: Account, length: usize) -> Result<(), Answer>
    ensures { Admits account length result }
{
    match account.kept {
        Some(answer) => Err(answer),
        None => fits(account.total, length),
    }
}

fn fits(total: u32, length: usize) -> Result<(), Answer>
    ensures { Fitting total length result }
{
    let room = 4294967295 - total as usize;
    if 65535 < length || room < length {
        return Err(Err(Refused::TooLong(Place(0))));
    }
    Ok(())
}
