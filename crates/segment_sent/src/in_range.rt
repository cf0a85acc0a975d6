// A knowledge in range, of which the byte to be sent next is told.
ghost use Rattle.knowing.specs.Standing.{Sound};
ghost use Rattle.segment.specs.Family.{sizes};
ghost use Rattle.segment.specs.Fact.{range};
ghost use Rattle.segment_sent.specs.Report.{bare, sound_once};

use segment::Family;
use segment_knowledge::Control;

// A part, and what is known of it beside the memory, where every known value is in its fact's range.
#[derive(Clone, Copy)]
pub struct InRange {
    pub family: Family,
    pub control: Control,
    pub ghost sound: { Sound (range (sizes family)) (bare control) } by { sound_once _ _ },
}
