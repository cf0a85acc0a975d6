// The report of the byte to be sent next.
ghost use Rattle.std.specs.Prelude.{◌≡◌};
ghost use Rattle.terms.specs.Part.{part_of};
ghost use Rattle.reporting.specs.declared.reports.NoReport.TheVariants as Why;
ghost use Rattle.reporting.specs.Report.{Tells, TellsPart, TellsSegment};

use panel::Panel;
use segment::Family;
use segment_sent::{InRange, Sending};
use terms::{NoPart, Part, Place};

// The byte, not driven or unknown; or why there is no report, and then it is unknown: number 1, for PT6302 too, or 2.
pub type Report = Result<Sending, NoReport>;

#[derive(Clone, Copy, Debug, PartialEq, Eq)]
pub enum NoReport {
    NoPart(Place),
    OutOfRange(Place),
}

impl From<NoPart> for NoReport {
    ghost from_gives = { λ unnamed r. r ≡ Why.NoPart unnamed.0 };

    fn from(unnamed: NoPart) -> NoReport {
        NoReport::NoPart(unnamed.0)
    }
}

pub fn next_sent(part: u8, panel: Panel) -> Report
    ensures { Tells (part_of part) panel result }
{
    sent_by(Part::try_from(part)?, panel)
}

fn sent_by(part: Part, panel: Panel) -> Report
    ensures { TellsPart part panel result }
{
    match part {
        Part::Pt6302 => Err(NoReport::NoPart(Place(0))),
        Part::Pt6312 => segment_sends(Family::Pt6312, panel),
        Part::Pt6315 => segment_sends(Family::Pt6315, panel),
    }
}

fn segment_sends(family: Family, panel: Panel) -> Report
    ensures { TellsSegment family panel result }
{
    let k = panel.segment;
    if !segment_ranges::sound(family, k) {
        return Err(NoReport::OutOfRange(Place(0)));
    }
    let known = InRange {
        family,
        control: k.control,
    };
    Ok(known.sent_next())
}
