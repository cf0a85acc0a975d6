// Key bytes in a row, each known or unknown as a whole: the code 256 is unknown, and any other code is known to be that number. They are codes and no `Option`s, since a
// knowledge that is handed in may hold 257 or more, which number 2 refuses (`Codes.RowSound`).
#![tactic(auto)]

ghost use Rattle.std.specs.Prelude.{◌≤◌, length};
ghost use Rattle.rules.specs.Tests.{Tests};
ghost use Rattle.knowing.specs.Standing.{Within};
ghost use Rattle.key_codes.specs.View.{coded};
ghost use Rattle.key_codes.specs.Codes.{RowSound, Small};

fn code_within(code: u16, limit: u16) -> bool
    ensures { Tests result (Within limit (coded code)) }
{
    if code == 256 {
        return true;
    }
    code < limit
}

// What is known of the first `count` codes is below the limit. Whatever they are, they are numbers of two bytes.
pub fn all_within(codes: &[u16], count: usize, limit: u16) -> bool
    requires { count ≤ length codes.now }
    ensures { (Tests result (RowSound codes.now count limit)) × (Small codes.now) }
{
    codes[..count].iter().all(|code| code_within(*code, limit))
}
