// The mirror: reads the part byte and a recording from standard input, and prints what is known of the panel afterwards, or why not. Where the input
// cannot be read to its end it prints nothing, since a recording that is cut must never pass for a whole one.
#![tactic(auto)]

ghost use Rattle.mirror_input.specs.Input.{part_byte, behind};
ghost use Rattle.mirror.specs.Mirror.{Shows};

use input::{run_on, status_of};
use mirror_input::{part_byte, recording_of};
use replay::from_nothing;
use std::process::ExitCode;

// The part byte, the longest recording that is allowed, and one byte more, which shows that a recording is too long.
const ROOM: usize = 65537;

fn main(rt: HostRuntime) -> ExitCode {
    run_on::<ROOM, _, _>(&rt, "mirror", rt.stdin(), |input| print(&rt, input))
}

fn print(rt: &(impl Print + Eprint), input: &[u8]) -> ExitCode {
    let mut out = [0u8; page::ROOM];
    let length = mirrored(input, &mut out);
    status_of(rt, "mirror", "page", rt.write_all(&out[..length]))
}

// Writes the page of an input to the front of `out`, and gives its length. Empty input has the part byte 0, which names no part.
fn mirrored(input: &[u8], out: &mut [u8]) -> usize
    ensures { Shows (part_byte input.now) (behind input.now) out.old result out.new }
{
    shown(part_byte(input), recording_of(input), out)
}

fn shown(part: u8, recording: &[u8], out: &mut [u8]) -> usize
    ensures { Shows part recording.now out.old result out.new }
{
    let after = from_nothing(part, recording);
    let answer = after.answer;
    let panel = after.panel;
    page::write_page(part, answer, panel, out)
}
