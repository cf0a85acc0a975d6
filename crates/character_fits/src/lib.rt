// What a painting of PT6302 comes to, before a byte of it is written: whether the picture is in its ranges, and whether there is room.
#![tactic(auto)]

ghost use Rattle.std.specs.Prelude.{◌≡◌};
ghost use Rattle.painting.specs.Fits.{all_below, character_fits};
ghost use Rattle.painting.specs.Answer.{character_answer};

use painting::{CharacterPicture, Painted, judged};

pub fn answer_to(picture: CharacterPicture, room: usize) -> Painted
    ensures { result ≡ character_answer picture room }
{
    judged(fits(picture), 172, room)
}

fn fits(picture: CharacterPicture) -> bool
    ensures { result ≡ character_fits picture }
{
    all_below(128, &picture.cgram)
        && all_below(4, &picture.adram)
        && picture.port < 4
        && picture.duty < 8
        && picture.digits < 8
}

fn all_below(limit: u8, values: &[u8]) -> bool
    ensures { result ≡ all_below limit values.now }
{
    values.iter().all(|value| *value < limit)
}
