// Answers, in words.
use answers::{Answer, told_of};
use std::io;
use terms::Place;

// Paper 01's number and place, behind a title.
pub fn answered(rt: &impl Print, title: &str, answer: Answer) -> io::Result<()> {
    let told = told_of(answer);
    match told.number {
        0 => print!(rt; "{title}done at {}", told.place.0),
        number => refused(rt, title, number as usize, told.place),
    }
}

pub fn refused(rt: &impl Print, title: &str, number: usize, place: Place) -> io::Result<()> {
    print!(rt; "{title}refused {number} at {}", place.0)
}
