// What a painting of PT6312 or PT6315 comes to, before a byte of it is written: whether the picture is in its ranges, and whether there is room.
#![tactic(auto)]

ghost use Rattle.std.specs.Prelude.{◌≡◌};
ghost use Rattle.segment.specs.Family.{sizes};
ghost use Rattle.painting.specs.Fits.{segment_fits};
ghost use Rattle.painting.specs.Answer.{segment_size, segment_answer};

use painting::{Painted, SegmentPicture, judged};
use segment::Family;

pub fn answer_to(family: Family, picture: SegmentPicture, room: usize) -> Painted
    ensures { result ≡ segment_answer family picture room }
{
    judged(fits(family, picture), size_of(family), room)
}

fn fits(family: Family, picture: SegmentPicture) -> bool
    ensures { result ≡ segment_fits (sizes family) picture }
{
    let sizes = family.sizes();
    picture.mode <= sizes.top && picture.dimming < 8 && picture.led < 16
}

fn size_of(family: Family) -> usize
    ensures { result ≡ segment_size family }
{
    match family {
        Family::Pt6312 => 66,
        Family::Pt6315 => 94,
    }
}
