// A program that makes something of its input, and says where it fails.
ghost use Rattle.std.specs.Prelude.{◌≡◌, ◌<◌, ◌^◌, ◌⊎◌, ℕ, List, OnOk, OnErr};
ghost use Rattle.std.specs.Process.{exit_status};
ghost use Rattle.std.specs.Fn.{FnOnceReturnsAt};
ghost use Rattle.input.specs.Program.{Stands};

use crate::failing::failed;
use crate::reading::read_input;
use crate::stream::Stream;
use read_answer::Input;
use std::io;
use std::io::Read;
use std::process::ExitCode;

// Runs a program on what a stream has, or on its first ROOM bytes where it has as many. Where the stream cannot be read to its end the program is not run at
// all, since a part of the input must never pass for the whole.
pub fn run_on<const ROOM: usize, R: Read + Drop, F: FnOnce(&[u8]) -> ExitCode>(
    rt: &impl Eprint,
    program: &str,
    from: R,
    run: F,
) -> ExitCode
    requires room { ROOM < 2 ^ 63 }
    requires callable { F.IsAlwaysCallable run }
    ensures { (exit_status result ≡ 1) ⊎ ((bytes : List ℕ) × Stands ROOM (R.remaining from) bytes × FnOnceReturnsAt F.FnOnce run bytes result) }
{
    let mut stream = Stream::new(from);
    let mut room = [0; ROOM];
    match read_input(&mut stream, &mut room) {
        Input::Whole(n) => run(&room[..n]),
        Input::Full => run(&room),
        Input::Failed => {
            let what = format_args!("{program}: the input could not be read to its end");
            failed(rt, what, stream.error)
        }
    }
}

// The status of a program behind what it wrote, the page or the line, say.
pub fn status_of(rt: &impl Eprint, program: &str, what: &str, written: io::Result<()>) -> ExitCode
    ensures ok { OnOk written (exit_status result ≡ 0) }
    ensures err { OnErr written (exit_status result ≡ 1) }
{
    match written {
        Ok(()) => ExitCode::SUCCESS,
        Err(error) => {
            let what = format_args!("{program}: the {what} could not be written whole");
            failed(rt, what, Some(error))
        }
    }
}
