// Where a chip stands in a transfer.
ghost use Rattle.rules.specs.Rule.{gives};
ghost use Rattle.segment.specs.View.{By};
ghost use Rattle.segment.specs.Move.{then};

use segment::{Moved, NONE, Position, Segment};

// Only the position changes.
pub fn at(chip: Segment, position: Position) -> Moved
    ensures { By (gives (then position)) chip result }
{
    Moved {
        chip: Segment { position, ..chip },
        any: NONE,
    }
}
