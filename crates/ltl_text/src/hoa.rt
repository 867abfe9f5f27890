//! The printer of a Büchi automaton in the Hanoi Omega-Automata format.

ghost use Rattle.std.specs.Prelude.{OnOk, OnErr};
ghost use Rattle.std.specs.Io.KnownBytes.{Appends};
ghost use Rattle.ltl_spec.specs.Automata.HoaText as text;
ghost use Rattle.ltl_streams.specs.Printing.{Prints};
ghost use Rattle.ltl_streams.specs.Streams.{AppendsBeginning, Breaks, Takes};
ghost use Rattle.ltl_syntax.specs.FormulaView.{reading_of};
ghost use Rattle.ltl_text.specs.HoaPieces.{head_text, quoted_names, states_text};

use crate::states::{put_number, put_state};
use ltl_models::Ba;
use ltl_streams::{ByteSink, Printer, WriteFault, WriterSink};
use ltl_syntax::Formula;
use std::alloc::Allocator;
use std::io::Write;

/// Writes all states.
fn put_states<A: Allocator, S: ByteSink>(automaton: &Ba<'_, A>, output: &mut Printer<'_, S>)
    ensures { Prints S.state output.old output.new (states_text automaton.now) }
{
    for k in 0..automaton.len() {
        put_state(k, automaton.accepting(k), automaton.edges(k), output);
    }
}

/// Writes the names of the propositions in quotes, each after a blank.
fn put_names<A: Allocator, S: ByteSink>(formula: &Formula<'_, A>, output: &mut Printer<'_, S>)
    ensures { Prints S.state output.old output.new (quoted_names formula.now.names) }
{
    for k in 0..formula.name_count() {
        output.put(b" \"");
        output.put(formula.name(k).as_bytes());
        output.put(b"\"");
    }
}

/// Writes the lines from `HOA:` to `AP:`. The end of the last line is missing.
pub(crate) fn put_head<A: Allocator, S: ByteSink>(
    count: usize,
    formula: &Formula<'_, A>,
    output: &mut Printer<'_, S>,
)
    ensures { Prints S.state output.old output.new (head_text count (reading_of formula.now)) }
{
    output.put(b"HOA: v1\nname: \"");
    output.put(formula.text());
    output.put(b"\"\nStates: ");
    put_number(count, output);
    output.put(b"\nStart: 0\nAP: ");
    put_number(formula.name_count(), output);
    put_names(formula, output);
}

/// Writes the automaton in version 1 of the Hanoi Omega-Automata format, with the formula as its name. It allocates nothing, and writes nothing after
/// an error.
pub fn put_hoa<A: Allocator, B: Allocator, S: ByteSink>(
    automaton: &Ba<'_, A>,
    formula: &Formula<'_, B>,
    sink: &mut S,
) -> Result<(), WriteFault>
    ensures ok { OnOk result (Takes (S.state sink.old) (S.state sink.new) (text.hoa_text automaton.now (reading_of formula.now))) }
    ensures err { OnErr result (Breaks (S.state sink.old) (S.state sink.new) (text.hoa_text automaton.now (reading_of formula.now))) }
{
    let mut output = Printer::new(sink);
    put_head(automaton.len(), formula, &mut output);
    output.put(
        b"\nacc-name: Buchi\nAcceptance: 1 Inf(0)\nproperties: trans-labels explicit-labels state-acc\n--BODY--\n",
    );
    put_states(automaton, &mut output);
    output.put(b"--END--\n");
    output.end()
}

/// The same as `put_hoa` to a standard writer, which isn't flushed.
pub fn hoa_to<A: Allocator, B: Allocator, W: Write>(
    automaton: &Ba<'_, A>,
    formula: &Formula<'_, B>,
    writer: &mut W,
) -> Result<(), WriteFault>
    ensures ok { OnOk result (Appends (W.contents writer.old) (W.contents writer.new) (text.hoa_text automaton.now (reading_of formula.now))) }
    ensures err { OnErr result (AppendsBeginning (W.contents writer.old) (W.contents writer.new) (text.hoa_text automaton.now (reading_of formula.now))) }
{
    put_hoa(automaton, formula, &mut WriterSink::new(writer))
}
