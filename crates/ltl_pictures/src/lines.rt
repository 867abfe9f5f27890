//! The lines of a timeline.

ghost use Rattle.std.specs.Prelude.{◌≡◌, ◌+◌, ◌-◌, ◌/◌, [], length, replicate};
ghost use Rattle.ltl_streams.specs.Printing.{Prints};
ghost use Rattle.ltl_pictures.specs.Timeline as spec;
ghost use Rattle.ltl_word.specs.LassoView.{size};
ghost use Rattle.ltl_word.specs.Rows.{bit_of};

use crate::columns::{put_digits, put_marks};
use ltl_streams::{ByteSink, Printer};
use ltl_text::Digits;
use ltl_word::{Bits, Lasso};
use std::alloc::Allocator;

/// Writes `to - from` blanks, or none if `from` is greater.
fn put_blanks<S: ByteSink>(from: usize, to: usize, out: &mut Printer<'_, S>)
    ensures { Prints S.state out.old out.new (replicate (to - from) 32) }
{
    let mut at = from;
    'blanks: while at < to {
        out.put(b" ");
        at += 1;
    }
}

/// Writes a label, filled up to the width with blanks.
fn put_label<S: ByteSink>(width: usize, label: &[u8], out: &mut Printer<'_, S>)
    ensures { Prints S.state out.old out.new (spec.padded width label.now) }
{
    out.put(label);
    put_blanks(label.len(), width, out);
}

/// Writes a line with the digit before `k` others of each position's number.
fn put_number_line<C: Allocator, S: ByteSink>(
    width: usize,
    word: &Lasso<'_, C>,
    k: usize,
    out: &mut Printer<'_, S>,
)
    ensures { Prints S.state out.old out.new (spec.line width word.now [] (spec.digit k)) }
{
    put_label(width, b"", out);
    put_digits(word, k, out);
    out.put(b"\n");
}

/// Writes the numbers of the positions from top to bottom, in as many lines as the greatest number has digits.
pub(crate) fn put_head<C: Allocator, S: ByteSink>(
    width: usize,
    word: &Lasso<'_, C>,
    out: &mut Printer<'_, S>,
)
    ensures { Prints S.state out.old out.new (spec.number_lines width word.now (spec.digit_count word.now)) }
{
    let greatest = Digits::of(word.len().saturating_sub(1) as u64);
    let mut left = greatest.as_slice().len();
    'lines: while left > 0 {
        left -= 1;
        put_number_line(width, word, left, out);
    }
}

/// Writes the line of a bit vector.
pub(crate) fn put_line<A: Allocator, C: Allocator, S: ByteSink>(
    width: usize,
    word: &Lasso<'_, C>,
    label: &[u8],
    row: &Bits<'_, A>,
    out: &mut Printer<'_, S>,
)
    requires { length row.now ≡ size word.now / 64 + 1 }
    ensures { Prints S.state out.old out.new
        (spec.line width word.now label.now (λ i. spec.mark (bit_of row.now i))) }
{
    put_label(width, label, out);
    put_marks(word, row, out);
    out.put(b"\n");
}
