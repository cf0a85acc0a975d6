// What is told of a field.
ghost use Rattle.std.specs.Prelude.{◌≡◌, ◌≤◌};
ghost use Rattle.fact.specs.View.{stands};
ghost use Rattle.field.specs.Said.{said};
ghost use Rattle.field.specs.Field.{told};
ghost use Rattle.field_cells.specs.Cells.{byte_at};
ghost use Rattle.field_told.specs.Laws.{either_unknown};

use fact::Single;
use field::{Field, spelled};
use field_cells::five_at;
use field_dark::is_dark;
use terms::Address;

// Dark is tested first, then whether all is known, then what the cells spell.
pub fn tell(lights: Single<u8>, digits: Single<u8>, dcram: [u16; 16], start: Address) -> Field
    requires { start.0 ≤ 11 }
    ensures { said result ≡ told (stands lights) (stands digits) (byte_at dcram) start.0 }
{
    let dark = is_dark(lights, digits, start);
    let unknown = either_unknown(lights, digits);
    if dark {
        return Field::Dark;
    }
    if unknown {
        return Field::Unknown;
    }
    match five_at(dcram, start) {
        Some(five) => spelled(five),
        None => Field::Unknown,
    }
}

fn either_unknown(lights: Single<u8>, digits: Single<u8>) -> bool
    ensures { result ≡ either_unknown (stands lights) (stands digits) }
{
    match (lights, digits) {
        (Single::Known(_), Single::Known(_)) => false,
        _ => true,
    }
}
