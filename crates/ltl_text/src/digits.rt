//! Decimal numbers without an allocation.

ghost use Rattle.std.specs.Prelude.{◌≡◌, ◌≤◌, drop};
ghost use Rattle.std.specs.Fmt.{decimal};

use itoa::write_digits;

/// A number in decimal digits, at the end of a buffer.
#[derive(Clone, Copy)]
pub struct Digits {
    bytes: [u8; 20],
    start: usize,
    ghost within: { start ≤ 20 },
}

impl Digits {
    /// The digits of this number. Those of 0 are `0`.
    pub fn of(number: u64) -> Digits
        ensures { drop result.start result.bytes ≡ decimal number }
    {
        let mut bytes = [0u8; 20];
        let start = write_digits(number, &mut bytes, 20);
        Digits { bytes, start }
    }

    /// The digits, the most significant one first.
    pub fn as_slice(&self) -> &[u8]
        ensures { result.now ≡ drop self.now.start self.now.bytes }
    {
        &self.bytes[self.start..]
    }
}
