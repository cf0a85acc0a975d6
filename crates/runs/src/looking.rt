// How the cells that differ lie around the ring, found in one pass.
ghost use Rattle.runs.specs.Survey.{differ, Surveyed};

use crate::ring::Ring;
use survey::{Survey, begins, counted, differs, found, leads};

impl Ring<'_> {
    pub fn look_over(self) -> Survey
        ensures { Surveyed self.entry.n (differ self.entry.codes.now self.entry.wanted.now) result }
    {
        let codes = self.codes;
        let wanted = self.wanted;
        let n = self.n;
        let mut cells = 0;
        let mut runs = 0;
        let mut lead = 0;
        let mut last = differs(codes[n - 1], wanted[n - 1]);
        for i in 0..n {
            let here = differs(codes[i], wanted[i]);
            cells = counted(cells, here);
            runs = counted(runs, begins(here, last));
            lead = counted(lead, leads(here, lead, i));
            last = here;
        }
        found(n, cells, runs, lead, last)
    }
}
