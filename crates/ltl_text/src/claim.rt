//! The printer of a Büchi automaton as a never claim of Spin.

ghost use Rattle.std.specs.Prelude.{◌≡◌, ◌<◌, length, OnOk, OnErr};
ghost use Rattle.std.specs.Io.KnownBytes.{Appends};
ghost use Rattle.ltl_spec.specs.Automata.ClaimText as claim;
ghost use Rattle.ltl_spec.specs.Checking.Bounds.{HasNamesBelow};
ghost use Rattle.ltl_streams.specs.Printing.{Prints};
ghost use Rattle.ltl_streams.specs.Streams.{AppendsBeginning, Breaks, Takes};
ghost use Rattle.ltl_syntax.specs.FormulaView.{reading_of};
ghost use Rattle.ltl_text.specs.Blocks.{blocks_text, others_text};

use crate::label::{put_label, skip_state};
use crate::literal_texts::LiteralTexts;
use crate::names::Names;
use crate::options::put_options;
use ltl_models::Ba;
use ltl_streams::{ByteSink, Printer, WriteFault, WriterSink};
use ltl_syntax::Formula;
use std::alloc::Allocator;
use std::io::Write;

/// Writes the lines below the label of a state.
fn put_body<A: Allocator, B: Allocator, S: ByteSink>(
    automaton: &Ba<'_, A>,
    texts: &LiteralTexts<'_, '_, B>,
    skip: usize,
    k: usize,
    output: &mut Printer<'_, S>,
)
    requires within { k < length automaton.now.states }
    requires named { HasNamesBelow (length texts.now) automaton.now }
    requires least { skip ≡ claim.skip_state automaton.now }
    ensures { Prints S.state output.old output.new (claim.body automaton.now texts.now k) }
{
    if k == skip {
        output.put(b"\tskip\n");
    } else if automaton.edges(k).is_empty() {
        output.put(b"\tfalse;\n");
    } else {
        output.put(b"\tif\n");
        put_options(automaton, texts, skip, k, output);
        output.put(b"\tfi;\n");
    }
}

/// Writes a state: its label and the lines below it.
fn put_block<A: Allocator, B: Allocator, S: ByteSink>(
    automaton: &Ba<'_, A>,
    texts: &LiteralTexts<'_, '_, B>,
    skip: usize,
    k: usize,
    output: &mut Printer<'_, S>,
)
    requires within { k < length automaton.now.states }
    requires named { HasNamesBelow (length texts.now) automaton.now }
    requires least { skip ≡ claim.skip_state automaton.now }
    ensures { Prints S.state output.old output.new (claim.block automaton.now texts.now k) }
{
    put_label(automaton, skip, k, output);
    output.put(b":\n");
    put_body(automaton, texts, skip, k, output);
}

/// Writes all states but `skip`.
fn put_others<A: Allocator, B: Allocator, S: ByteSink>(
    automaton: &Ba<'_, A>,
    texts: &LiteralTexts<'_, '_, B>,
    skip: usize,
    output: &mut Printer<'_, S>,
)
    requires named { HasNamesBelow (length texts.now) automaton.now }
    requires least { skip ≡ claim.skip_state automaton.now }
    ensures { Prints S.state output.old output.new (others_text automaton.now texts.now) }
{
    for k in 0..automaton.len() {
        if k == skip {
            continue;
        }
        put_block(automaton, texts, skip, k, output);
    }
}

/// Writes all states, `accept_all` last.
pub(crate) fn put_blocks<A: Allocator, B: Allocator, S: ByteSink>(
    automaton: &Ba<'_, A>,
    texts: &LiteralTexts<'_, '_, B>,
    output: &mut Printer<'_, S>,
)
    requires { HasNamesBelow (length texts.now) automaton.now }
    ensures { Prints S.state output.old output.new (blocks_text automaton.now texts.now) }
{
    let skip = skip_state(automaton);
    put_others(automaton, texts, skip, output);
    if skip < automaton.len() {
        put_block(automaton, texts, skip, skip, output);
    }
}

/// Writes the automaton as a never claim of Spin, with the formula in a comment. State 0 is named `accept_init` or `T0_init`. The least accepting
/// state other than 0 whose only edge is a loop without literals is named `accept_all`, and comes last. The options of a state are ordered by target.
/// It allocates nothing, and writes nothing after an error.
pub fn put_claim<A: Allocator, B: Allocator, S: ByteSink>(
    automaton: &Ba<'_, A>,
    formula: &Formula<'_, B>,
    sink: &mut S,
) -> Result<(), WriteFault>
    requires { HasNamesBelow (length formula.now.names) automaton.now }
    ensures ok { OnOk result (Takes (S.state sink.old) (S.state sink.new) (claim.never_text automaton.now (reading_of formula.now))) }
    ensures err { OnErr result (Breaks (S.state sink.old) (S.state sink.new) (claim.never_text automaton.now (reading_of formula.now))) }
{
    let mut output = Printer::new(sink);
    output.put(b"never { /* ");
    output.put(formula.text());
    output.put(b" */\n");
    let texts = LiteralTexts::new(Names::OfFormula(formula));
    put_blocks(automaton, &texts, &mut output);
    output.put(b"}\n");
    output.end()
}

/// The same as `put_claim` to a standard writer, which isn't flushed.
pub fn never_to<A: Allocator, B: Allocator, W: Write>(
    automaton: &Ba<'_, A>,
    formula: &Formula<'_, B>,
    writer: &mut W,
) -> Result<(), WriteFault>
    requires { HasNamesBelow (length formula.now.names) automaton.now }
    ensures ok { OnOk result (Appends (W.contents writer.old) (W.contents writer.new) (claim.never_text automaton.now (reading_of formula.now))) }
    ensures err { OnErr result (AppendsBeginning (W.contents writer.old) (W.contents writer.new) (claim.never_text automaton.now (reading_of formula.now))) }
{
    put_claim(automaton, formula, &mut WriterSink::new(writer))
}
