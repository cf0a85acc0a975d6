// Whether an account is fair, as far as no knowledge is asked for it: test 2 of the unfinished bytes, the total and the standing refusal.
#![tactic(auto)]

ghost use Rattle.std.specs.Prelude.{◌<◌, length};
ghost use Rattle.rules.specs.Tests.{Tests};
ghost use Rattle.recording.specs.Start.{CutOff};
ghost use Rattle.account.specs.Bytes.{bytes_of};
ghost use Rattle.account_fair.specs.Fair.{MayStand, Fair};

use account::{Account, Unfinished, count_of, row_of};
use answers::{Answer, Refused};
use one_record::record_at;
use recording::Refusal;
use terms::{Part, Place};

// Number 2 is for an account that is not fair.
pub fn is_fair(part: Part, account: Account) -> bool
    ensures { Tests result (Fair part account) }
{
    is_start(part, account.unfinished)
        && count_of(account.unfinished) <= account.total as usize
        && may_stand(account.kept)
}

// The cut-off start of a record of this part, or no bytes.
fn is_start(part: Part, unfinished: Unfinished) -> bool
    ensures { Tests result (CutOff part (bytes_of unfinished)) }
{
    let count = count_of(unfinished);
    if count == 0 {
        return true;
    }
    let row = row_of(unfinished);
    is_cut_short(part, &row[..count])
}

// Each refusal has its line, so that an edit can turn one by itself, and the answer that it breaks says so.
fn is_cut_short(part: Part, bytes: &[u8]) -> bool
    requires { 0 < length bytes.now }
    ensures { Tests result (CutOff part bytes.now) }
{
    match record_at(part, bytes, Place(0)) {
        Ok(_) => false,
        Err(refusal) => match refusal {
            Refusal::CutShort => true,
            Refusal::Unlisted => false,
            Refusal::Foreign => false,
            Refusal::Forbidden => false,
        },
    }
}

fn may_stand(kept: Option<Answer>) -> bool
    ensures { Tests result (MayStand kept) }
{
    match kept {
        None => true,
        Some(answer) => matches!(
            answer,
            Err(Refused::Unlisted(_) | Refused::Foreign(_) | Refused::Forbidden(_))
        ),
    }
}
