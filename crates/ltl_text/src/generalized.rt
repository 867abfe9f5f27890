//! The printer of a generalized Büchi automaton in the Hanoi Omega-Automata format.

ghost use Rattle.std.specs.Prelude.{OnOk, OnErr};
ghost use Rattle.std.specs.Io.KnownBytes.{Appends};
ghost use Rattle.ltl_spec.specs.Automata.GeneralizedText as text;
ghost use Rattle.ltl_streams.specs.Printing.{Prints};
ghost use Rattle.ltl_streams.specs.Streams.{AppendsBeginning, Breaks, Takes};
ghost use Rattle.ltl_syntax.specs.FormulaView.{reading_of};
ghost use Rattle.ltl_text.specs.HoaPieces.{condition_text, marked_states_text, set_text};

use crate::hoa::put_head;
use crate::states::{put_number, put_state};
use ltl_models::Gen;
use ltl_streams::{ByteSink, Printer, WriteFault, WriterSink};
use ltl_syntax::Formula;
use std::alloc::Allocator;
use std::io::Write;

/// Writes all states.
pub(crate) fn put_states<A: Allocator, S: ByteSink>(
    automaton: &Gen<'_, A>,
    output: &mut Printer<'_, S>,
)
    ensures { Prints S.state output.old output.new (marked_states_text automaton.now) }
{
    for k in 0..automaton.len() {
        put_state(k, false, automaton.edges(k), output);
    }
}

/// Writes the name of the acceptance condition: `all` for no sets.
fn put_acceptance_name<S: ByteSink>(sets: usize, output: &mut Printer<'_, S>)
    ensures { Prints S.state output.old output.new (text.acceptance_name sets) }
{
    if sets == 0 {
        output.put(b"all");
    } else {
        output.put(b"generalized-Buchi ");
        put_number(sets, output);
    }
}

fn put_set<S: ByteSink>(k: usize, output: &mut Printer<'_, S>)
    ensures { Prints S.state output.old output.new (set_text k) }
{
    output.put(b"Inf(");
    put_number(k, output);
    output.put(b")");
}

/// Writes the number of acceptance sets and the acceptance condition: `t` for no sets.
fn put_acceptance<S: ByteSink>(sets: usize, output: &mut Printer<'_, S>)
    ensures { Prints S.state output.old output.new (text.acceptance_text sets) }
{
    if sets == 0 {
        output.put(b"0 t");
        return;
    }
    put_number(sets, output);
    output.put(b" ");
    put_set(0, output);
    for k in 1..sets {
        output.put(b"&");
        put_set(k, output);
    }
}

/// Writes the end of the line `AP:`, and the lines from `acc-name:` to `--BODY--`.
pub(crate) fn put_condition<S: ByteSink>(sets: usize, output: &mut Printer<'_, S>)
    ensures { Prints S.state output.old output.new (condition_text sets) }
{
    output.put(b"\nacc-name: ");
    put_acceptance_name(sets, output);
    output.put(b"\nAcceptance: ");
    put_acceptance(sets, output);
    output.put(b"\nproperties: trans-labels explicit-labels trans-acc\n--BODY--\n");
}

/// Writes the automaton in version 1 of the Hanoi Omega-Automata format, with the formula as its name and the acceptance sets on edges. It allocates
/// nothing, and writes nothing after an error.
pub fn put_generalized<A: Allocator, B: Allocator, S: ByteSink>(
    automaton: &Gen<'_, A>,
    formula: &Formula<'_, B>,
    sink: &mut S,
) -> Result<(), WriteFault>
    ensures ok { OnOk result (Takes (S.state sink.old) (S.state sink.new) (text.generalized_text automaton.now (reading_of formula.now))) }
    ensures err { OnErr result (Breaks (S.state sink.old) (S.state sink.new) (text.generalized_text automaton.now
        (reading_of formula.now))) }
{
    let mut output = Printer::new(sink);
    put_head(automaton.len(), formula, &mut output);
    put_condition(automaton.sets(), &mut output);
    put_states(automaton, &mut output);
    output.put(b"--END--\n");
    output.end()
}

/// The same as `put_generalized` to a standard writer, which isn't flushed.
pub fn gen_to<A: Allocator, B: Allocator, W: Write>(
    automaton: &Gen<'_, A>,
    formula: &Formula<'_, B>,
    writer: &mut W,
) -> Result<(), WriteFault>
    ensures ok { OnOk result (Appends (W.contents writer.old) (W.contents writer.new) (text.generalized_text automaton.now (reading_of formula.now))) }
    ensures err { OnErr result (AppendsBeginning (W.contents writer.old) (W.contents writer.new) (text.generalized_text automaton.now
        (reading_of formula.now))) }
{
    put_generalized(automaton, formula, &mut WriterSink::new(writer))
}
