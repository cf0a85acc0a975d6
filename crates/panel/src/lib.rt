// A panel's knowledge, whichever of the three parts drives it.
#![tactic(auto)]

ghost use Rattle.std.specs.Prelude.{◌≡◌};
ghost use Rattle.panel.specs.View.{KnowsNothing};

// What is known of a panel. Its part byte stands beside it, and says which half speaks of it; the other half is kept as it is.
#[derive(Clone, Copy)]
pub struct Panel {
    pub segment: segment_knowledge::Knowledge,
    pub character: character_knowledge::Knowledge,
}

pub fn nothing_known() -> Panel
    ensures { KnowsNothing result }
{
    Panel {
        segment: segment_knowledge::nothing_known(),
        character: character_knowledge::nothing_known(),
    }
}

// The panel with another half for PT6312 and PT6315.
pub fn with_segment(panel: Panel, segment: segment_knowledge::Knowledge) -> Panel
    ensures { (result.segment ≡ segment) × (result.character ≡ panel.character) }
{
    Panel { segment, ..panel }
}

// The panel with another half for PT6302.
pub fn with_character(panel: Panel, character: character_knowledge::Knowledge) -> Panel
    ensures { (result.character ≡ character) × (result.segment ≡ panel.segment) }
{
    Panel { character, ..panel }
}
