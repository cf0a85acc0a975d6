// What a program says where it fails.
ghost use Rattle.std.specs.Prelude.{◌≡◌};
ghost use Rattle.std.specs.Process.{exit_status};

use std::fmt::Display;
use std::io;
use std::process::ExitCode;

// Writes a line to standard error, which says what failed and, where that is known, why, and gives the status of a program that failed. Where even that
// line cannot be written, the status alone says so.
pub fn failed(rt: &impl Eprint, what: impl Display + Drop, why: Option<io::Error>) -> ExitCode
    ensures { exit_status result ≡ 1 }
{
    let _ = match why {
        Some(error) => eprintln!(rt; "{what}: {error}"),
        None => eprintln!(rt; "{what}"),
    };
    ExitCode::FAILURE
}
