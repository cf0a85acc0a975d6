// What a byte clocked in does to a chip.
ghost use Rattle.character.specs.View.{By};
ghost use Rattle.character.specs.Value.{at_position};
ghost use Rattle.character.specs.Move.{byte_in};

use crate::commanded::commanded;
use crate::moves::unchanged;
use character::{Character, Moved, Position, command_of};
use character_rams::{to_draw, to_mark, to_show};

pub fn byte_in(chip: Character, byte: u8) -> Moved
    ensures { By (byte_in byte (at_position chip.position)) chip result }
{
    let position = chip.position;
    match position {
        Position::Dcram => to_show(chip, byte),
        Position::Cgram => to_draw(chip, byte),
        Position::Adram => to_mark(chip, byte),
        Position::First => commanded(chip, command_of(byte)),
        Position::Idle => unchanged(chip),
        Position::Ignoring => unchanged(chip),
    }
}
