// The painter: a part byte, a wanted picture and a lent output become the recording that paints the picture.
#![tactic(auto)]

ghost use Rattle.std.specs.Prelude.{◌≡◌, length};
ghost use Rattle.terms.specs.Part.{part_of};
ghost use Rattle.painting.specs.Answer.{answer, output, number, place, number_for, place_for, segment_answer, segment_stream, character_answer, character_stream, written};

use painting::{CharacterPicture, Picture, SegmentPicture};
pub use painting::{NotPainted, Painted};
use segment::Family;
use terms::Part;

// Writes the recording that paints the picture to the front of `out`. A refused painting writes nothing.
pub fn paint(part: u8, picture: Picture, out: &mut [u8]) -> Painted
    ensures value { (result ≡ answer part picture (length out.old)) × (out.new ≡ output part picture out.old) }
    ensures result_value { (number result ≡ number_for (part_of part) picture (length out.old)) × ((place result).0 ≡ place_for (part_of part) picture (length out.old)) }
{
    match Part::try_from(part)? {
        Part::Pt6302 => characters(picture.character, out),
        Part::Pt6312 => segments(Family::Pt6312, picture.segment, out),
        Part::Pt6315 => segments(Family::Pt6315, picture.segment, out),
    }
}

// Writes the painting only where the picture is in its ranges and there is room.
fn segments(family: Family, picture: SegmentPicture, out: &mut [u8]) -> Painted
    ensures { (result ≡ segment_answer family picture (length out.old))
        × (out.new ≡ written (segment_answer family picture (length out.old)) (segment_stream family picture) out.old) }
{
    let length = segment_fits::answer_to(family, picture, out.len())?;
    segment_painter::write(family, picture, out);
    Ok(length)
}

// The same for PT6302. The two stay two: they call other functions over other pictures, and one over both would take its two steps as closures and be no plainer.
fn characters(picture: CharacterPicture, out: &mut [u8]) -> Painted
    ensures { (result ≡ character_answer picture (length out.old))
        × (out.new ≡ written (character_answer picture (length out.old)) (character_stream picture) out.old) }
{
    let length = character_fits::answer_to(picture, out.len())?;
    character_painter::write(picture, out);
    Ok(length)
}
