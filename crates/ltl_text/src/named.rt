//! The printer of an automaton in the Hanoi Omega-Automata format that has names for its propositions, and no formula.

ghost use Rattle.std.specs.Prelude.{map, string_bytes, OnOk, OnErr};
ghost use Rattle.ltl_streams.specs.Printing.{Prints};
ghost use Rattle.ltl_streams.specs.Streams.{Breaks, Takes};
ghost use Rattle.ltl_text.specs.HoaPieces.{quoted_names, unnamed_head};
ghost use Rattle.ltl_text.specs.NamedText.{named_text};

use crate::generalized::{put_condition, put_states};
use crate::states::put_number;
use ltl_models::Gen;
use ltl_streams::{ByteSink, Printer, WriteFault};
use std::alloc::Allocator;

/// Writes names in quotes, each after a blank.
fn put_quoted<A: Allocator, S: ByteSink>(names: &[String<&A>], output: &mut Printer<'_, S>)
    ensures { Prints S.state output.old output.new (quoted_names (map string_bytes names.now)) }
{
    for k in 0..names.len() {
        output.put(b" \"");
        output.put(names[k].as_bytes());
        output.put(b"\"");
    }
}

/// Writes the lines from `HOA:` to `AP:`. The end of the last line is missing.
fn put_unnamed<A: Allocator, S: ByteSink>(
    count: usize,
    names: &[String<&A>],
    output: &mut Printer<'_, S>,
)
    ensures { Prints S.state output.old output.new (unnamed_head count (map string_bytes names.now)) }
{
    output.put(b"HOA: v1\nStates: ");
    put_number(count, output);
    output.put(b"\nStart: 0\nAP: ");
    put_number(names.len(), output);
    put_quoted(names, output);
}

/// Writes the automaton in version 1 of the Hanoi Omega-Automata format, with these names for its propositions and the acceptance sets on edges. The text has no
/// line `name:`. It allocates nothing, and writes nothing after an error.
pub fn put_named<A: Allocator, B: Allocator, S: ByteSink>(
    automaton: &Gen<'_, A>,
    names: &[String<&B>],
    sink: &mut S,
) -> Result<(), WriteFault>
    ensures ok { OnOk result (Takes (S.state sink.old) (S.state sink.new) (named_text automaton.now (map string_bytes names.now))) }
    ensures err { OnErr result (Breaks (S.state sink.old) (S.state sink.new) (named_text automaton.now (map string_bytes names.now))) }
{
    let mut output = Printer::new(sink);
    put_unnamed(automaton.len(), names, &mut output);
    put_condition(automaton.sets(), &mut output);
    put_states(automaton, &mut output);
    output.put(b"--END--\n");
    output.end()
}
