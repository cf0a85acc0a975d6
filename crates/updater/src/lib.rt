// The update: a part byte, what is known, the wanted cells and a lent output become the recording that brings the panel to these cells, and what is known when
// it has gone out.
#![tactic(auto)]

ghost use Rattle.terms.specs.Part.{part_of};
ghost use Rattle.updating.specs.Answer.{Updates};
ghost use Rattle.updating.specs.Refresh.{Refreshes};
ghost use Rattle.updater.specs.ByFamily.{RefreshesSegment};

use panel::Panel;
use runs::Ring;
use segment::Family;
use segment_ranges::sound;
use segment_refreshed::refreshed;
use segment_updater::send;
use terms::{NoPart, Part, Place};
use updating::is_set;
pub use updating::{NotUpdated, Refreshed, StreamSize, Updated};

// The answer of `refresh` alone, for a caller that does not keep what is known.
pub fn update(part: u8, panel: Panel, wanted: [u8; 36], out: &mut [u8]) -> Updated
    ensures { Updates (part_of part) panel wanted out.old result out.new }
{
    refresh(part, panel, wanted, out).answer
}

// Writes the recording to the front of `out`, and gives what is known when it has gone out, which is what a replay of it from `panel` would tell. A refused update writes
// nothing, and gives the panel as it was handed in. PT6312 uses the first 22 of the wanted cells.
pub fn refresh(part: u8, panel: Panel, wanted: [u8; 36], out: &mut [u8]) -> Refreshed
    ensures { Refreshes (part_of part) panel wanted out.old result out.new }
{
    match Part::try_from(part) {
        Ok(Part::Pt6302) => Refreshed {
            answer: Err(NotUpdated::NoPart(Place(0))),
            panel,
        },
        Ok(Part::Pt6312) => refresh_segment(Family::Pt6312, panel, wanted, out),
        Ok(Part::Pt6315) => refresh_segment(Family::Pt6315, panel, wanted, out),
        Err(NoPart(place)) => Refreshed {
            answer: Err(NotUpdated::NoPart(place)),
            panel,
        },
    }
}

fn refresh_segment(family: Family, mut panel: Panel, wanted: [u8; 36], out: &mut [u8]) -> Refreshed
    ensures { RefreshesSegment family panel wanted out.old result out.new }
{
    let known = panel.segment;
    if !sound(family, known) {
        return Refreshed {
            answer: Err(NotUpdated::OutOfRange(Place(0))),
            panel,
        };
    }
    let sizes = family.sizes();
    let codes = known.cells;
    let set = is_set(known.control);
    let ring = Ring {
        codes: &codes,
        wanted: &wanted,
        n: sizes.cells as usize,
    };
    let sending = send(ring, set, out);
    if let Some(cell) = sending.behind {
        let then = refreshed(family, known, set, wanted, cell);
        panel.segment = then;
    }
    Refreshed {
        answer: sending.answer,
        panel,
    }
}
