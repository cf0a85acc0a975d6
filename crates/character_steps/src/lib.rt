// A step: what an event makes of a knowledge of PT6302, told in two, the facts beside the memory and what happens to the memory.
#![tactic(auto)]

ghost use Rattle.std.specs.Prelude.{◌≡◌};
ghost use Rattle.rules.specs.Rule.{gives, free};
ghost use Rattle.character_steps.specs.Step.{kept_of, forgotten_of, Steps};

use changes::Change;
use character_knowledge::{Control, no_control};

// The facts beside the memory, and what happens to the memory: three rows here and one in `segment_steps`, so that the two steps share no more than a name.
#[derive(Clone, Copy)]
pub struct Step {
    pub control: Control,
    pub dcram: Change,
    pub cgram: Change,
    pub adram: Change,
}

// The memory stays.
pub fn kept(control: Control) -> Step
    ensures { result ≡ kept_of control }
{
    Step {
        control,
        dcram: Change::Keep,
        cgram: Change::Keep,
        adram: Change::Keep,
    }
}

// Nothing is known of the memory any more.
pub fn forgotten(control: Control) -> Step
    ensures { result ≡ forgotten_of control }
{
    Step {
        control,
        dcram: Change::Forget,
        cgram: Change::Forget,
        adram: Change::Forget,
    }
}

// Whatever was known, events were lost.
pub fn lost(c: Control) -> Step
    ensures { Steps (gives (λ f. free)) c result }
{
    let control = no_control();
    forgotten(control)
}
