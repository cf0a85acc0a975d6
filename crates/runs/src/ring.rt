// The ring of cells that an update goes around.
ghost use Rattle.std.specs.Prelude.{◌≤◌, ◌<◌, length};

// The first n cells: a code of what is known of each, and its wanted byte.
#[derive(Clone, Copy)]
pub struct Ring<'a> {
    pub codes: &'a [u16],
    pub wanted: &'a [u8],
    pub n: usize,
    pub ghost some: { 0 < n },
    pub ghost few: { n ≤ 64 },
    pub ghost known: { n ≤ length codes.now },
    pub ghost asked: { n ≤ length wanted.now },
}
