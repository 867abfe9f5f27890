//! Output of a formula's canonical text.

ghost use Rattle.std.specs.Prelude.{OnOk, OnErr};
ghost use Rattle.std.specs.Io.KnownBytes.{Appends};
ghost use Rattle.ltl_spec.specs.Formulas.Canonical.{canonical_text};
ghost use Rattle.ltl_streams.specs.Streams.{AppendsBeginning, Breaks, Takes};
ghost use Rattle.ltl_syntax.specs.FormulaView.{reading_of};

use crate::formula::Formula;
use ltl_streams::{ByteSink, WriteFault, WriterSink, write_whole};
use std::alloc::Allocator;
use std::io::Write;

/// Writes the canonical text of a formula to a sink, without an end of line and without a flush. It allocates nothing.
pub fn put_text<A: Allocator, S: ByteSink>(
    formula: &Formula<'_, A>,
    sink: &mut S,
) -> Result<(), WriteFault>
    ensures ok { OnOk result (Takes (S.state sink.old) (S.state sink.new) (canonical_text (reading_of formula.now))) }
    ensures err { OnErr result (Breaks (S.state sink.old) (S.state sink.new) (canonical_text (reading_of formula.now))) }
{
    write_whole(sink, formula.text())
}

/// The same as `put_text` to a standard writer, which isn't flushed.
pub fn text_to<A: Allocator, W: Write>(
    formula: &Formula<'_, A>,
    w: &mut W,
) -> Result<(), WriteFault>
    ensures ok { OnOk result (Appends (W.contents w.old) (W.contents w.new) (canonical_text (reading_of formula.now))) }
    ensures err { OnErr result (AppendsBeginning (W.contents w.old) (W.contents w.new) (canonical_text (reading_of formula.now))) }
{
    put_text(formula, &mut WriterSink::new(w))
}
