//! A line in memory, of at most 144 bytes.

ghost use Rattle.std.specs.Prelude.{◌≡◌, ◌+◌, ◌≤◌, ◌++◌, length};
ghost use Rattle.ltl_cli.specs.Messages.{number_text};

use arrayvec::ArrayVec;
use ltl_text::Digits;

/// Room for the longest line of a program, in bytes.
pub(crate) const SIZE: usize = 144;

/// Appends bytes. There is room for them.
pub(crate) fn put(line: &mut ArrayVec<u8, SIZE>, bytes: &[u8])
    requires { length line.old.items + length bytes.now ≤ 144 }
    ensures { line.new.items ≡ line.old.items ++ bytes.now }
{
    let _ = line.try_extend_from_slice(bytes);
}

/// Appends a number and a colon, if there is a number.
pub(crate) fn put_number(line: &mut ArrayVec<u8, SIZE>, number: Option<usize>)
    requires { length line.old.items ≤ 100 }
    ensures put { line.new.items ≡ line.old.items ++ number_text number }
    ensures short { length line.new.items ≤ length line.old.items + 22 }
{
    if let Some(number) = number {
        put(line, Digits::of(number as u64).as_slice());
        put(line, b": ");
    }
}
