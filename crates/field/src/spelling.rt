// What five bytes spell.
ghost use Rattle.std.specs.Prelude.{◌≡◌, ◌≤◌};
ghost use Rattle.field.specs.Field.{is_digit, all_dashes, is_number, digit_in, half_in, size_of, spelled as field_spelled};
ghost use Rattle.field.specs.Said.{said};

use half_degrees::Halves;

// Five cells in a row.
#[derive(Clone, Copy)]
pub struct Five {
    pub sign: u8,
    pub tens: u8,
    pub units: u8,
    pub point: u8,
    pub half: u8,
}

// What is told of a field.
#[derive(Clone, Copy)]
pub enum Field {
    Reads(Halves),
    NoReading,
    Dark,
    Unknown,
    NotAReading,
}

const SPACE: u8 = 0x20;

const MINUS: u8 = 0x2D;

const POINT: u8 = 0x2E;

pub fn spelled(five: Five) -> Field
    ensures { said result ≡ field_spelled five }
{
    if all_dashes(five) {
        return Field::NoReading;
    }
    if is_number(five) {
        Field::Reads(Halves {
            negative: five.sign == MINUS,
            size: size_of(five),
        })
    } else {
        Field::NotAReading
    }
}

fn all_dashes(five: Five) -> bool
    ensures { result ≡ all_dashes five }
{
    let front = (five.sign == MINUS) & (five.tens == MINUS) & (five.units == MINUS);
    front & ((five.point == MINUS) & (five.half == MINUS))
}

// Each cell may hold what it holds.
fn is_number(five: Five) -> bool
    ensures { result ≡ is_number five }
{
    let sign = (five.sign == SPACE) | (five.sign == MINUS);
    let tens = is_digit(five.tens) | (five.tens == SPACE);
    let half = (five.half == 0x30) | (five.half == 0x35);
    sign & tens & is_digit(five.units) & ((five.point == POINT) & half)
}

fn is_digit(byte: u8) -> bool
    ensures { result ≡ is_digit byte }
{
    (0x30 <= byte) & (byte <= 0x39)
}

// How many half degrees, whatever the sign.
fn size_of(five: Five) -> u8
    ensures { result ≡ size_of five }
{
    2 * (10 * digit_in(five.tens) + digit_in(five.units)) + half_in(five.half)
}

// What a digit counts. Any other byte, as a space, counts nought.
fn digit_in(byte: u8) -> u8
    ensures { (result ≡ digit_in byte) × (result ≤ 9) }
{
    if is_digit(byte) { byte - 0x30 } else { 0 }
}

fn half_in(byte: u8) -> u8
    ensures { (result ≡ half_in byte) × (result ≤ 1) }
{
    if byte == 0x35 { 1 } else { 0 }
}
