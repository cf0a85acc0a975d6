// Where a run begins.
ghost use Rattle.std.specs.Prelude.{◌≡◌, ◌+◌, ◌<◌, length, get_or};

use terms::Place;

// The bytes of a recording, and a place in them where a whole record of kind 03 stands.
#[derive(Clone, Copy)]
pub struct ByteRun<'a> {
    pub bytes: &'a [u8],
    pub at: Place,
    pub ghost inside: { at.0 + 1 < length bytes.now },
    pub ghost kind: { get_or bytes.now at.0 0 ≡ 3 },
}
