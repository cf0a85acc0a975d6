// What a call of read answers, and what that tells of the input.
#![tactic(auto)]

ghost use Rattle.read_answer.specs.Answer.{Tells};

use std::io::ErrorKind;

// No plainer as a Result: a full buffer is neither the whole input nor a failure.
#[derive(Clone, Copy)]
pub enum Input {
    // The input is read to its end: so many bytes stand at the front of the buffer.
    Whole(usize),
    // The buffer is full. Who lends a byte more than it takes knows then that the input is too long.
    Full,
    // The input could not be read to its end, and who read it knows why.
    Failed,
}

// No plainer as a Result: an interruption is neither bytes nor the end.
#[derive(Clone, Copy)]
pub enum Next {
    // So many more bytes came, and not none.
    Came(usize),
    // The call was interrupted before a byte came.
    Interrupted,
    // There is nothing more to read.
    Over(Input),
}

// By what the call answered, and how many bytes came before it. Only a call that gives no byte and no error is the end of the input.
pub fn told(answer: Result<usize, ErrorKind>, before: usize) -> Next
    ensures { Tells answer before result }
{
    match answer {
        Ok(0) => Next::Over(Input::Whole(before)),
        Ok(count) => Next::Came(count),
        Err(ErrorKind::Interrupted) => Next::Interrupted,
        Err(_) => Next::Over(Input::Failed),
    }
}
