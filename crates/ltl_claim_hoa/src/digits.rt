//! Decimal numbers in a text.

ghost use Rattle.std.specs.Prelude.{◌≡◌, ◌++◌, OnOk};
ghost use Rattle.std.specs.Fmt.{decimal};

use itoa::write_digits;
use std::alloc::{AllocError, Allocator};

/// Appends the digits of a number. Those of 0 are `0`.
pub(crate) fn put_number<A: Allocator>(
    number: usize,
    text: &mut Vec<u8, &A>,
) -> Result<(), AllocError>
    ensures { OnOk result (text.new.items ≡ text.old.items ++ decimal number) }
{
    let mut bytes = [0u8; 20];
    let start = write_digits(number as u64, &mut bytes, 20);
    text.extend_from_slice(&bytes[start..])
}
