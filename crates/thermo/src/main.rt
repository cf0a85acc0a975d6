// The thermometer for the bench: reads the part byte, the start of a field and a recording from standard input, and prints the temperature that the field
// shows afterwards, or why there is none. Where the input cannot be read to its end it prints nothing, as the mirror does.
#![tactic(auto)]

ghost use Rattle.terms.specs.Part.{part_of};
ghost use Rattle.mirror_input.specs.Input.{part_byte, behind, start_byte};
ghost use Rattle.thermo.specs.Thermo.{Told, Shows};

use answers::told_of;
use input::{run_on, status_of};
use mirror_input::{part_byte, recording_of, start_byte};
use panel::Panel;
use replay::from_nothing;
use std::process::ExitCode;
use temperature_line::{write_line, write_refusal};
use terms::Address;
use thermometer::temperature;

// The part byte, the start, the longest recording that is allowed, and one byte more, which shows that a recording is too long.
const ROOM: usize = 65538;

fn main(rt: HostRuntime) -> ExitCode {
    run_on::<ROOM, _, _>(&rt, "thermo", rt.stdin(), |input| print(&rt, input))
}

fn print(rt: &(impl Print + Eprint), input: &[u8]) -> ExitCode {
    let mut out = [0u8; temperature_line::ROOM];
    let length = read_off(input, &mut out);
    status_of(rt, "thermo", "line", rt.write_all(&out[..length]))
}

// Writes the line of an input to the front of `out`, and gives its length. Where `out` has less than ROOM bytes nothing is written, and the length is 0.
fn read_off(input: &[u8], out: &mut [u8]) -> usize
    ensures { Shows (part_byte input.now) (start_byte input.now) (behind (behind input.now)) out.old result out.new }
{
    let recording = recording_of(recording_of(input));
    shown(part_byte(input), Address(start_byte(input)), recording, out)
}

// A recording that is refused is told of first.
fn shown(part: u8, start: Address, recording: &[u8], out: &mut [u8]) -> usize
    ensures { Shows part start.0 recording.now out.old result out.new }
{
    let after = from_nothing(part, recording);
    let answer = after.answer;
    let replayed = told_of(answer);
    if replayed.number == 0 {
        return told(part, after.panel, start, out);
    }
    write_refusal(replayed.number, replayed.place, out)
}

fn told(part: u8, panel: Panel, start: Address, out: &mut [u8]) -> usize
    ensures { Told (part_of part) panel start.0 out.old result out.new }
{
    write_line(temperature(part, panel, start), out)
}
