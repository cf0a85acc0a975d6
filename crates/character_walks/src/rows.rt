// All rows.
ghost use Rattle.character_known.specs.Together.{Sized};
ghost use Rattle.character_walks.specs.Reached.{Blank};

use changes::forget;
use character_known::Rows;

// Nothing is known of the memory any more.
pub fn forget_all(rows: &mut Rows)
    ensures blank { Blank rows.new.dcram rows.new.cgram rows.new.adram }
    ensures sized { Sized rows.new }
{
    forget(&mut rows.dcram);
    forget(&mut rows.cgram);
    forget(&mut rows.adram);
}
