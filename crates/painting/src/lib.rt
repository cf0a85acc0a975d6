// The wanted picture of a panel, by value, and what a painting of it comes to. What paints it, and that this leads every chip to the picture, stands in specs/.
#![tactic(auto)]

ghost use Rattle.std.specs.Prelude.{◌≡◌};
ghost use Rattle.painting.specs.Answer.{judged as judgedAs};
ghost use Rattle.painting.specs.declared.NotPainted.TheVariants as Why;

use character::Lights;
use segment::Display;
use terms::{NoPart, Place};

// A picture of a PT6312 or PT6315 panel: its memory and the settings that a painting sets.
#[derive(Clone, Copy)]
pub struct SegmentPicture {
    // PT6312 uses the first 22.
    pub cells: [u8; 36],
    pub mode: u8,
    pub dimming: u8,
    pub display: Display,
    pub led: u8,
}

// A picture of a PT6302 panel. Column k of character n stands at 5 n + k of cgram.
#[derive(Clone, Copy)]
pub struct CharacterPicture {
    pub dcram: [u8; 16],
    pub cgram: [u8; 40],
    pub adram: [u8; 16],
    pub port: u8,
    pub duty: u8,
    pub digits: u8,
    pub lights: Lights,
}

// A picture for either kind of panel; a painting looks at the one that its part byte asks for.
#[derive(Clone, Copy)]
pub struct Picture {
    pub segment: SegmentPicture,
    pub character: CharacterPicture,
}

// What a painting comes to: the length of the recording that was written, or why there is none.
pub type Painted = Result<Place, NotPainted>;

#[derive(Clone, Copy, Debug, PartialEq, Eq)]
pub enum NotPainted {
    // The part byte names no part.
    NoPart(Place),
    // A value of the picture is out of its range.
    OutOfRange(Place),
    // The output is too small.
    TooSmall(Place),
}

impl From<NoPart> for NotPainted {
    ghost from_gives = { λ unnamed r. r ≡ Why.NoPart unnamed.0 };

    fn from(unnamed: NoPart) -> NotPainted {
        NotPainted::NoPart(unnamed.0)
    }
}

// First 9, for a value out of its range, and then 10, for too little room.
pub fn judged(fits: bool, size: usize, room: usize) -> Painted
    ensures { result ≡ judgedAs fits size room }
{
    if !fits {
        return Err(NotPainted::OutOfRange(Place(0)));
    }
    if room < size {
        return Err(NotPainted::TooSmall(Place(0)));
    }
    Ok(Place(size))
}
