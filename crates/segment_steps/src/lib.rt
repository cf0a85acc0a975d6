// A step: what an event makes of a knowledge of PT6312 and PT6315, told in two, the facts beside the memory and what happens to the memory.
#![tactic(auto)]

ghost use Rattle.std.specs.Prelude.{◌≡◌};
ghost use Rattle.rules.specs.Rule.{gives, free};
ghost use Rattle.segment.specs.Family.{sizes};
ghost use Rattle.segment_steps.specs.Step.{kept_of, forgotten_of, Steps};

use changes::Change;
use segment::Family;
use segment_knowledge::{Control, no_control};

// The facts beside the memory, and what happens to the memory.
#[derive(Clone, Copy)]
pub struct Step {
    pub control: Control,
    pub change: Change,
}

// The memory stays.
pub fn kept(control: Control) -> Step
    ensures { result ≡ kept_of control }
{
    Step {
        control,
        change: Change::Keep,
    }
}

// The memory is unknown now.
pub fn forgotten(control: Control) -> Step
    ensures { result ≡ forgotten_of control }
{
    Step {
        control,
        change: Change::Forget,
    }
}

// Whatever was known, events were lost.
pub fn lost(family: Family, c: Control) -> Step
    ensures { Steps (sizes family) (gives (λ f. free)) c result }
{
    let control = no_control();
    forgotten(control)
}
