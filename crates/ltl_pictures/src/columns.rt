//! The columns of a timeline's lines, one for each position.

ghost use Rattle.std.specs.Prelude.{◌≡◌, ◌+◌, ◌/◌, ◌==◌, [], codes, if◌then◌else◌, length};
ghost use Rattle.ltl_streams.specs.Printing.{Prints};
ghost use Rattle.ltl_pictures.specs.Timeline as spec;
ghost use Rattle.ltl_word.specs.LassoView.{size};
ghost use Rattle.ltl_word.specs.Rows.{bit_of};

use ltl_streams::{ByteSink, Printer};
use ltl_text::Digits;
use ltl_word::{Bits, Lasso};
use std::alloc::Allocator;

fn mark(value: bool) -> u8
    ensures { result ≡ spec.mark value }
{
    if value { b'*' } else { b'.' }
}

/// The digit of the number `i` before `k` others, or a blank if there is none.
fn digit(k: usize, i: usize) -> u8
    ensures { result ≡ spec.digit k i }
{
    let number = Digits::of(i as u64);
    let digits = number.as_slice();
    if k < digits.len() {
        digits[digits.len() - 1 - k]
    } else {
        b' '
    }
}

/// Writes a bar if the cycle begins at this position.
fn put_bar<S: ByteSink>(stem: usize, i: usize, out: &mut Printer<'_, S>)
    ensures { Prints S.state out.old out.new (if i == stem then codes " |" else []) }
{
    if i == stem {
        out.put(b" |");
    }
}

/// Writes a column, after a bar if the cycle begins there.
fn put_column<S: ByteSink>(stem: usize, i: usize, byte: u8, out: &mut Printer<'_, S>)
    ensures { Prints S.state out.old out.new (spec.column stem i byte) }
{
    put_bar(stem, i, out);
    out.put(&[b' ', byte]);
}

/// Writes the digit before `k` others of each position's number.
pub(crate) fn put_digits<C: Allocator, S: ByteSink>(
    word: &Lasso<'_, C>,
    k: usize,
    out: &mut Printer<'_, S>,
)
    ensures { Prints S.state out.old out.new
        (spec.texts_from (λ i. spec.column (length word.now.stem) i (spec.digit k i)) 0 (size word.now)) }
{
    for i in 0..word.len() {
        put_column(word.stem_len(), i, digit(k, i), out);
    }
}

/// Writes a mark for each position.
pub(crate) fn put_marks<A: Allocator, C: Allocator, S: ByteSink>(
    word: &Lasso<'_, C>,
    row: &Bits<'_, A>,
    out: &mut Printer<'_, S>,
)
    requires { length row.now ≡ size word.now / 64 + 1 }
    ensures { Prints S.state out.old out.new
        (spec.texts_from (λ i. spec.column (length word.now.stem) i (spec.mark (bit_of row.now i))) 0 (size word.now)) }
{
    for i in 0..word.len() {
        put_column(word.stem_len(), i, mark(row.get(i)), out);
    }
}
