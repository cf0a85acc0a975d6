// Writing the runs: once around the ring from the front, a strobe being low or not.
ghost use Rattle.std.specs.Prelude.{◌≡◌, ◌<◌};
ghost use Rattle.writing.specs.Wrote.{Wrote};
ghost use Rattle.terms.specs.Event.{recording};
ghost use Rattle.runs.specs.Runs.{behind, starts_of, last_end, run_events, wanted as wantedIn};
ghost use Rattle.runs.specs.Linear.{cell_events, rises_if};
ghost use Rattle.runs.specs.Front.{front_of};
ghost use Rattle.runs.specs.Survey.{differ};

use crate::ring::Ring;
use strobes::byte_in;
use survey::{differs, last_end};
use terms::Address;
use writing::Writer;

impl Ring<'_> {
    // The runs; the cell behind the last of them, and 00H where there is none.
    pub fn write_runs(self, w: &mut Writer, front: usize) -> Address
        requires { front ≡ front_of self.n (differ self.codes.now self.wanted.now) }
        ensures { (result.0 ≡ last_end self.entry.n (differ self.entry.codes.now self.entry.wanted.now) 0
            (starts_of self.entry.n (differ self.entry.codes.now self.entry.wanted.now)))
            × Wrote w.old (recording (run_events self.entry.n (differ self.entry.codes.now self.entry.wanted.now) (wantedIn self.entry.wanted.now))) w.new }
    {
        let codes = self.codes;
        let wanted = self.wanted;
        let n = self.n;
        let mut low = false;
        let mut end = 0;
        let mut i = front;
        for _ in 0..n {
            let here = differs(codes[i], wanted[i]);
            write_cell(w, low, here, Address(i as u8), wanted[i]);
            low = here;
            i = next(i, n);
            end = last_end(here, i, end);
        }
        rise(w, low);
        Address(end as u8)
    }
}

// What is written at a cell, by whether the strobe is low, and whether the cell differs.
fn write_cell(w: &mut Writer, low: bool, here: bool, address: Address, byte: u8)
    requires { address.0 < 64 }
    ensures { Wrote w.old (recording (cell_events low here address.0 byte)) w.new }
{
    if here {
        if low {
            return byte_in(w, byte);
        }
        w.put(2);
        byte_in(w, 0xC0 + address.0);
        return byte_in(w, byte);
    }
    rise(w, low);
}

// A strobe that is low rises.
fn rise(w: &mut Writer, low: bool)
    ensures { Wrote w.old (recording (rises_if low)) w.new }
{
    if low {
        w.put(4);
    }
}

// The cell behind cell i around the ring of n.
fn next(i: usize, n: usize) -> usize
    requires { i < n }
    ensures { result ≡ behind n i }
{
    if i + 1 < n { i + 1 } else { 0 }
}
