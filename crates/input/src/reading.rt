// Reading to the end of the input, or until the buffer is full.
ghost use Rattle.std.specs.Prelude.{◌<◌, length};
ghost use Rattle.input.specs.Reading.{Goes, Reads};
ghost use Rattle.input.specs.Bytes.{Gives, Hands};

use read_answer::{Input, Next, told};
use std::io::Read;

// Reads a stream into a buffer. An interrupted call is made again: a proved loop has to end, so these are counted down from a number that no run
// uses up. The loop goes on by as many bytes as a call gave, which no `for` over the buffer does.
pub fn read_input<R: Read>(stream: &mut R, buffer: &mut [u8]) -> Input
    ensures reads { Reads buffer.old result buffer.new }
    ensures bytes { Gives (R.remaining stream.old) (R.remaining stream.new) result buffer.new }
{
    let mut done = 0;
    let mut interruptions = u64::MAX;
    while done < buffer.len() {
        match read_on(stream, buffer, done) {
            Next::Came(n) => done += n,
            Next::Interrupted => {
                if interruptions == 0 {
                    return Input::Failed;
                }
                interruptions -= 1;
            }
            Next::Over(input) => return input,
        }
    }
    Input::Full
}

// One call, for what comes behind the bytes that came before, which stay.
fn read_on<R: Read>(stream: &mut R, buffer: &mut [u8], before: usize) -> Next
    requires { before < length buffer.old }
    ensures goes { Goes buffer.old before result buffer.new }
    ensures bytes { Hands (R.remaining stream.old) (R.remaining stream.new) before result buffer.new }
{
    let answer = stream
        .read(&mut buffer[before..])
        .map_err(|error| error.kind());
    told(answer, before)
}
