// A program that runs examples.
use input::{run_on, status_of};
use std::io;
use std::io::Read;
use std::process::ExitCode;

// A byte more than is taken shows that the input is longer.
const ROOM: usize = 65536;

// Runs a program on the examples that it is given, of which there are 65,535 bytes at most.
pub fn run_examples<R: Read + Drop, F: FnOnce(&[u8]) -> io::Result<()>>(
    rt: &impl Eprint,
    program: &str,
    from: R,
    run: F,
) -> ExitCode
    requires { F.IsAlwaysCallable run }
{
    run_on::<ROOM, _, _>(rt, program, from, |examples| {
        if examples.len() < ROOM {
            return status_of(rt, program, "output", run(examples));
        }
        let _ = eprintln!(rt; "{program}: the input is longer than 65,535 bytes");
        ExitCode::SUCCESS
    })
}
