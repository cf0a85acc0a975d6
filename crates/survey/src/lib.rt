// What is counted of cells around a ring, one by one, and what is found behind the last.
#![tactic(auto)]

ghost use Rattle.std.specs.Prelude.{◌≡◌, not, ◌&&◌, ◌+◌, ◌<◌, eqb};
ghost use Rattle.rules.specs.Choice.{whether};
ghost use Rattle.knowing.specs.Holds.{holds};
ghost use Rattle.lamps.specs.View.{shown};

use lamps::holds;

// How many cells differ, in how many runs, and the front: how many cells from 00H on end a run that goes round.
#[derive(Clone, Copy)]
pub struct Survey {
    pub cells: usize,
    pub runs: usize,
    pub front: usize,
}

// The cell is not known to hold its wanted byte: one of its bits is unknown or different.
pub fn differs(code: u16, byte: u8) -> bool
    ensures { result ≡ not (holds 8 (shown 8 code) byte) }
{
    !holds(code, byte)
}

// No ring has more than 64 cells, so that no count passes that.
pub fn counted(count: usize, one: bool) -> usize
    requires { count < 64 }
    ensures { result ≡ count + whether one 1 0 }
{
    if one { count + 1 } else { count }
}

// The cell differs, and the one before it does not.
pub fn begins(here: bool, last: bool) -> bool
    ensures { result ≡ (here && not last) }
{
    if here { !last } else { false }
}

// The cell differs, and so do all before it.
pub fn leads(here: bool, lead: usize, i: usize) -> bool
    ensures { result ≡ (eqb lead i && here) }
{
    if lead == i { here } else { false }
}

// The cell behind the last that differed: the one behind this cell where it differs, and else as it was.
pub fn last_end(here: bool, behind: usize, end: usize) -> usize
    ensures { result ≡ whether here behind end }
{
    if here { behind } else { end }
}

// Where all differ they are one run, from 00H; else a run that goes round ends with those that lead.
pub fn found(n: usize, cells: usize, runs: usize, lead: usize, last: bool) -> Survey
    ensures { result ≡ whether (eqb cells n) (record { cells = cells; runs = 1; front = 0 }) (record { cells = cells; runs = runs; front = whether last lead 0 }) }
{
    if cells == n {
        return Survey {
            cells,
            runs: 1,
            front: 0,
        };
    }
    let front = if last { lead } else { 0 };
    Survey { cells, runs, front }
}
