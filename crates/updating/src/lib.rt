// What an update comes to, whether the setting that it needs is known, and what that makes of the reading count. What it sends, and what that does, stands in
// specs/.
#![tactic(auto)]

ghost use Rattle.std.specs.Prelude.{◌≡◌, ℕ};
ghost use Rattle.rules.specs.Choice.{whether};
ghost use Rattle.knowing.specs.Standing.{Standing as OfStanding, known};
ghost use Rattle.fact.specs.View.{stands};
ghost use Rattle.segment_knowledge.specs.View.{cview};
ghost use Rattle.updating.specs.Update.{is_set};

use fact::{Single, is_known};
use panel::Panel;
use segment_knowledge::{Control, INCREMENT, WRITE_DISPLAY};
use terms::Place;

// What an update comes to: sent, or why nothing was.
pub type Updated = Result<StreamSize, NotUpdated>;

// The length of the recording that was written, and how many of its bytes go over the wire.
#[derive(Clone, Copy, Debug, PartialEq, Eq)]
pub struct StreamSize {
    pub length: Place,
    pub wire: usize,
}

#[derive(Clone, Copy, Debug, PartialEq, Eq)]
pub enum NotUpdated {
    // The part byte names no part with cells to update: PT6302 has none.
    NoPart(Place),
    // A known value is out of its fact's range.
    OutOfRange(Place),
    // The output is too small.
    TooSmall(Place),
}

// What an update came to, and what is known when its bytes have gone out: as it was handed in, where it was refused.
#[derive(Clone, Copy)]
pub struct Refreshed {
    pub answer: Updated,
    pub panel: Panel,
}

// The data setting is known to be write display and increment.
pub fn is_set(control: Control) -> bool
    ensures { (cells : ℕ → ℕ → OfStanding) → result ≡ is_set (cview cells control) }
{
    let mode = control.data;
    let step = control.stepping;
    is_known(mode, WRITE_DISPLAY) & is_known(step, INCREMENT)
}

// The reading count behind an update: 40H, which goes first where the setting was not known, sets it back.
pub fn reads_behind(set: bool, count: Single<u8>) -> Single<u8>
    ensures { stands result ≡ whether set (stands count) (known 0) }
{
    if set { count } else { Single::Known(0) }
}
