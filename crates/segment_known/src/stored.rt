// What a data byte does that goes to the address.
ghost use Rattle.std.specs.Prelude.{◌≡◌, ◌<◌};
ghost use Rattle.segment.specs.Family.{sizes};
ghost use Rattle.fact.specs.View.{stands};
ghost use Rattle.segment_knowledge.specs.View.{points};
ghost use Rattle.segment_known.specs.Writes.{stepped_on, Stores};

use changes::Change;
use fact::Single;
use segment::{Family, Pointer, behind};
use segment_knowledge::{INCREMENT, Pointing};
use terms::Address;

// The address behind the byte, and what happens to the cells.
#[derive(Clone, Copy)]
pub struct Stored {
    pub address: Pointing,
    pub change: Change,
}

pub fn stored_by(family: Family, address: Pointing, stepping: Single<u8>, byte: u8) -> Stored
    ensures { Stores (sizes family) byte address stepping result }
{
    match address {
        Pointing::Known(Pointer::At(cell)) => {
            let sizes = family.sizes();
            if cell.0 < sizes.cells {
                Stored {
                    address: stepped(family, cell, stepping),
                    change: Change::Put(cell, byte),
                }
            } else {
                Stored {
                    address,
                    change: Change::Keep,
                }
            }
        }
        Pointing::Known(Pointer::Invalid) => Stored {
            address,
            change: Change::Keep,
        },
        Pointing::Unknown => {
            let sizes = family.sizes();
            Stored {
                address,
                change: Change::Meet(Address(0), 1, sizes.cells, byte),
            }
        }
    }
}

// The address behind a byte that is stored in a cell: where the stepping is unknown, it may have stepped on or not.
fn stepped(family: Family, cell: Address, stepping: Single<u8>) -> Pointing
    requires { cell.0 < (sizes family).cells }
    ensures { points result ≡ stepped_on (sizes family) cell.0 (stands stepping) }
{
    match stepping {
        Single::Known(step) => match step {
            INCREMENT => Pointing::Known(behind(family, cell)),
            _ => Pointing::Known(Pointer::At(cell)),
        },
        Single::Unknown => Pointing::Unknown,
    }
}
