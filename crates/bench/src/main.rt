// Takes one recording many times, whole or in packets, and prints a checksum of what came out, for `tools/bench` to measure.
//
// Standard input is the number of rounds in four bytes, the size of a packet and that of a prelude in two bytes each, the low byte first; a mark each for the
// position, the data mode and the addresses; and then the part byte, the prelude and the recording. The prelude is replayed once, by one who knows nothing, and what has a
// mark other than 0 is forgotten: that is what each round starts from. With the size 0 a round replays the whole recording; else it takes packets of that size, of which the last
// has what is left, and closes. Every round's answer goes into the checksum, and then every fact that the last one ends with.
#![tactic(auto)]

mod packeted;
mod rounds;
mod start;

ghost use Rattle.std.specs.Prelude.{◌≡◌, ◌<◌, get_or, take, drop};
ghost use Rattle.bench.specs.Rounds.{number_at, Measures};

use checksum::Sum;
use input::{run_on, status_of};
use rounds::summed;
use start::{Marks, started};
use std::process::ExitCode;

// Behind the longest prelude there is room for a byte more than the longest recording that is allowed, as the mirror takes it.
const ROOM: usize = 131083;

fn main(rt: HostRuntime) -> ExitCode {
    run_on::<ROOM, _, _>(
        &rt,
        "bench",
        rt.stdin(),
        |input| print(&rt, measured(input)),
    )
}

fn print(rt: &(impl Print + Eprint), sum: Sum) -> ExitCode {
    let number = sum.0;
    status_of(rt, "bench", "checksum", println!(rt; "{number}"))
}

fn measured(input: &[u8]) -> Sum
    ensures { Measures input.now result.0 }
{
    let rounds = number(input, 0) + number(input, 2) * 65536;
    let size = number(input, 4);
    let prelude = number(input, 6);
    let marks = Marks {
        position: byte(input, 8),
        data: byte(input, 9),
        addresses: byte(input, 10),
    };
    let part = byte(input, 11);
    let rest = behind(input, 12);
    let start = started(marks, part, front(rest, prelude));
    summed(rounds, size, part, start, behind(rest, prelude))
}

// In two bytes, the low byte first.
fn number(input: &[u8], i: usize) -> usize
    requires { i < 8 }
    ensures { (result ≡ number_at input.now i) × (result < 65536) }
{
    u16::from_le_bytes([byte(input, i), byte(input, i + 1)]) as usize
}

// A byte that is missing counts as 0.
fn byte(input: &[u8], i: usize) -> u8
    ensures { result ≡ get_or input.now i 0 }
{
    input.get(i).copied().unwrap_or(0)
}

// The first n bytes, or all where there are fewer.
fn front(bytes: &[u8], n: usize) -> &[u8]
    ensures { result.now ≡ take n bytes.now }
{
    bytes.get(..n).unwrap_or(bytes)
}

// What stands behind those.
fn behind(bytes: &[u8], n: usize) -> &[u8]
    ensures { result.now ≡ drop n bytes.now }
{
    bytes.get(n..).unwrap_or(&[])
}
