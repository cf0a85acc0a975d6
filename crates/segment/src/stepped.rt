// Where the address steps to.
ghost use Rattle.std.specs.Prelude.{◌≡◌, ◌<◌};
ghost use Rattle.segment.specs.Family.{sizes};
ghost use Rattle.segment.specs.Move.{after};

use crate::{Family, Pointer};
use terms::Address;

// The address behind a cell, which is 00H behind the last.
pub fn behind(family: Family, cell: Address) -> Pointer
    requires { cell.0 < (sizes family).cells }
    ensures { result ≡ after (sizes family) cell.0 }
{
    let sizes = family.sizes();
    if cell.0 + 1 < sizes.cells {
        Pointer::At(Address(cell.0 + 1))
    } else {
        Pointer::At(Address(0))
    }
}
