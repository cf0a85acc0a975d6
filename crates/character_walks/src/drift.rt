// What a run of bytes of unknown place leaves known beside the memory, and what they have in common.
ghost use Rattle.std.specs.Prelude.{◌≡◌};
ghost use Rattle.character_known.specs.Ram.{Adrift, Gone};
ghost use Rattle.character_walks.specs.Drifts.{Gathers};

use byte_runs::ByteRun;
use character::{Command, command_of};
use character_knowledge::Control;
use character_known::{Astray, weakened};
use lamps::{EIGHT, both_lamps, code_of};

// The number of bytes and a code of what they have in common; and how many cells of each RAM meet that, from the first on.
#[derive(Clone, Copy)]
pub struct Gathered {
    pub control: Control,
    pub count: usize,
    pub code: u16,
    pub dcram: usize,
    pub cgram: usize,
    pub adram: usize,
}

// There are none where more is known of their place than a run leaves.
pub fn gather_run(c: Control, place: Astray, bytes: ByteRun) -> Gathered
    requires { Gone c place }
    ensures { Gathers bytes.entry.bytes.now bytes.entry.at.0 c result }
{
    let mut run = Gathered {
        control: c,
        count: 0,
        code: 0,
        dcram: 0,
        cgram: 0,
        adram: 0,
    };
    match place {
        Astray::Shown => run.dcram = 16,
        Astray::Drawn => run.cgram = 40,
        Astray::Marked => run.adram = 16,
        Astray::Anywhere => {
            return drift(c, bytes);
        }
        Astray::Not => {
            return run;
        }
    }
    let common = bytes.shared(EIGHT);
    run.count = common.count;
    run.code = common.code;
    run
}

// Each may be a command, or go to any cell of any RAM, or do nothing. The run ends before an undefined command, which leaves nothing known, as
// those below 10H are; and a command from there on below 40H sets an address, which is unknown already: no more is asked of it.
fn drift(c: Control, run: ByteRun) -> Gathered
    requires { Adrift c }
    ensures { Gathers run.entry.bytes.now run.entry.at.0 c result }
{
    let bytes = run.bytes;
    let from = run.at.0;
    let most = (bytes.len() - from) / 2;
    let mut control = c;
    let mut code = code_of(EIGHT, bytes[from + 1]);
    for j in 0..most {
        if bytes[from + 2 * j] != 3 {
            return adrift(control, j, code);
        }
        let byte = bytes[from + 2 * j + 1];
        if byte >= 64 {
            let command = command_of(byte);
            if let Command::Undefined = command {
                return adrift(control, j, code);
            }
            control = weakened(control, command);
        } else if byte < 16 {
            return adrift(control, j, code);
        }
        code = both_lamps(code, code_of(EIGHT, byte));
    }
    adrift(control, most, code)
}

// Every cell meets what the bytes have in common.
fn adrift(control: Control, count: usize, code: u16) -> Gathered
    ensures { result ≡ record { control = control; count = count; code = code; dcram = 16; cgram = 40; adram = 16 } }
{
    Gathered {
        control,
        count,
        code,
        dcram: 16,
        cgram: 40,
        adram: 16,
    }
}
