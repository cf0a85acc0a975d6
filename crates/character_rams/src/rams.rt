// What a byte that goes to a RAM does to a chip.
ghost use Rattle.character.specs.View.{By};
ghost use Rattle.character.specs.Move.{shown, drawn, marked};

use character::{Character, Moved, NONE};

// A byte goes to DCRAM.
pub fn to_show(mut chip: Character, byte: u8) -> Moved
    ensures { By (shown byte chip.dcram_at.0) chip result }
{
    let cell = chip.dcram_at.0 % 16;
    chip.dcram[cell as usize] = byte;
    chip.dcram_at.0 = (cell + 1) % 16;
    Moved { chip, any: NONE }
}

// A pair of bits goes to ADRAM.
pub fn to_mark(mut chip: Character, byte: u8) -> Moved
    ensures { By (marked byte chip.adram_at.0) chip result }
{
    let cell = chip.adram_at.0 % 16;
    let i = cell as usize;
    let old = chip.adram[i];
    chip.adram[i] = (old ^ (old & 3)) | (byte & 3);
    chip.adram_at.0 = (cell + 1) % 16;
    Moved { chip, any: NONE }
}

// A column of seven bits goes to CGRAM.
pub fn to_draw(mut chip: Character, byte: u8) -> Moved
    ensures { By (drawn byte chip.cgram_at.0 chip.column) chip result }
{
    let character = chip.cgram_at.0 % 8;
    let column = chip.column % 5;
    let i = (character * 5 + column) as usize;
    let old = chip.cgram[i];
    chip.cgram[i] = (old ^ (old & 127)) | (byte & 127);
    if column == 4 {
        chip.cgram_at.0 = (character + 1) % 8;
        chip.column = 0;
        return Moved { chip, any: NONE };
    }
    chip.column = column + 1;
    Moved { chip, any: NONE }
}
