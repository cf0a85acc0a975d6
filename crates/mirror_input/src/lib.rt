// What the programs read: the part byte, for a field its start, and the recording behind.
#![tactic(auto)]

ghost use Rattle.std.specs.Prelude.{◌≡◌};
ghost use Rattle.mirror_input.specs.Input.{part_byte, behind, start_byte};

pub fn part_byte(input: &[u8]) -> u8
    ensures { result ≡ part_byte input.now }
{
    input.first().copied().unwrap_or(0)
}

pub fn recording_of(input: &[u8]) -> &[u8]
    ensures { result.now ≡ behind input.now }
{
    match input {
        [] => input,
        [_, rest @ ..] => rest,
    }
}

// The start byte of a field, behind the part byte. Where there is none no field is meant, and 255 starts none.
pub fn start_byte(input: &[u8]) -> u8
    ensures { result ≡ start_byte input.now }
{
    input.get(1).copied().unwrap_or(255)
}
