//! The printer of a Büchi automaton as a never claim that has names for its propositions, and no formula.

ghost use Rattle.std.specs.Prelude.{length, map, string_bytes, OnOk, OnErr};
ghost use Rattle.ltl_spec.specs.Checking.Bounds.{HasNamesBelow};
ghost use Rattle.ltl_streams.specs.Streams.{Breaks, Takes};
ghost use Rattle.ltl_text.specs.NamedClaim.{named_claim};

use crate::claim::put_blocks;
use crate::literal_texts::LiteralTexts;
use crate::names::Names;
use ltl_models::Ba;
use ltl_streams::{ByteSink, Printer, WriteFault};
use std::alloc::Allocator;

/// Writes the automaton as a never claim of Spin, with these names for its propositions. The text has no comment; else it is that of `put_claim`. It allocates
/// nothing, and writes nothing after an error.
pub fn put_named_claim<A: Allocator, B: Allocator, S: ByteSink>(
    automaton: &Ba<'_, A>,
    names: &[String<&B>],
    sink: &mut S,
) -> Result<(), WriteFault>
    requires { HasNamesBelow (length (map string_bytes names.now)) automaton.now }
    ensures ok { OnOk result (Takes (S.state sink.old) (S.state sink.new) (named_claim automaton.now (map string_bytes names.now))) }
    ensures err { OnErr result (Breaks (S.state sink.old) (S.state sink.new) (named_claim automaton.now (map string_bytes names.now))) }
{
    let mut output = Printer::new(sink);
    output.put(b"never {\n");
    let texts = LiteralTexts::new(Names::Listed(names));
    put_blocks(automaton, &texts, &mut output);
    output.put(b"}\n");
    output.end()
}
