// What each round starts from.
ghost use Rattle.std.specs.Prelude.{◌≡◌};
ghost use Rattle.bench.specs.Start.{kept, less_of_segment, less_of_character, Starts};

use character_knowledge::Control as Character;
use fact::Single;
use panel::Panel;
use replay::from_nothing;
use segment_knowledge::Control as Segment;

// For each of these facts, whether it is forgotten: 0 is for no. They are bytes as they are read, which `Start.unless` looks at.
#[derive(Clone, Copy)]
pub struct Marks {
    pub position: u8,
    pub data: u8,
    pub addresses: u8,
}

pub fn started(marks: Marks, part: u8, prelude: &[u8]) -> Panel
    ensures { Starts marks part prelude.now result }
{
    let replayed = from_nothing(part, prelude);
    let panel = replayed.panel;
    let mut segment = panel.segment;
    segment.control = less_of_segment(marks, segment.control);
    let mut character = panel.character;
    character.control = less_of_character(marks, character.control);
    Panel { segment, character }
}

fn less_of_segment(marks: Marks, c: Segment) -> Segment
    ensures { result ≡ less_of_segment marks c }
{
    let data = c.data;
    let position = c.position;
    let still = Segment {
        data: kept(marks.data, data),
        position: kept(marks.position, position),
        ..c
    };
    if marks.addresses == 0 {
        return still;
    }
    Segment {
        address: segment_knowledge::Pointing::Unknown,
        ..still
    }
}

fn less_of_character(marks: Marks, c: Character) -> Character
    ensures { result ≡ less_of_character marks c }
{
    let position = c.position;
    let still = Character {
        position: kept(marks.position, position),
        ..c
    };
    if marks.addresses == 0 {
        return still;
    }
    Character {
        dcram_at: character_knowledge::Pointing::Unknown,
        cgram_at: character_knowledge::Pointing::Unknown,
        adram_at: character_knowledge::Pointing::Unknown,
        column: Single::Unknown,
        ..still
    }
}

// A fact that is forgotten where it has a mark.
fn kept(mark: u8, fact: Single<u8>) -> Single<u8>
    ensures { result ≡ kept mark fact }
{
    if mark == 0 { fact } else { Single::Unknown }
}
