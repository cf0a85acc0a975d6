// A checksum: for each number it is 31 times what it was plus the number, modulo the largest prime below 2^32.
ghost use Rattle.std.specs.Prelude.{◌≡◌, ◌%◌, take};
ghost use Rattle.checksum.specs.Sum.{taken, all_taken, code_of};

use fact::Single;
use terms::{Place, Value};

#[derive(Clone, Copy)]
pub struct Sum(pub u32);

impl Sum {
    pub fn take(self, n: u16) -> Sum
        ensures { result.0 ≡ taken self.0 n }
    {
        let long = self.0 as u64 * 31 + n as u64;
        Sum((long % 4294967291) as u32)
    }

    pub fn place(self, place: Place) -> Sum
        ensures { result.0 ≡ taken self.0 (place.0 % 65536) }
    {
        self.take((place.0 % 65536) as u16)
    }

    // What is known of one fact: the number of its value, or 256.
    pub fn fact<T: Value>(self, fact: Single<T>) -> Sum
        ensures { result.0 ≡ taken self.0 (code_of T.number fact) }
    {
        self.take(code(fact))
    }

    // The first n of them, which are those that the part has.
    pub fn first(self, n: u8, codes: &[u16]) -> Sum
        ensures { result.0 ≡ all_taken self.0 (take n codes.now) }
    {
        if (n as usize) < codes.len() {
            return self.codes(&codes[..n as usize]);
        }
        self.codes(codes)
    }

    pub fn codes(self, codes: &[u16]) -> Sum
        ensures { result.0 ≡ all_taken self.0 codes.now }
    {
        let mut sum = self;
        for code in codes {
            sum = sum.take(*code);
        }
        sum
    }
}

fn code<T: Value>(fact: Single<T>) -> u16
    ensures { result ≡ code_of T.number fact }
{
    match fact {
        Single::Known(value) => value.as_number(),
        Single::Unknown => 256,
    }
}
