//! The printer of a cube as a guard of Promela.

ghost use Rattle.std.specs.Prelude.{length};
ghost use Rattle.ltl_spec.specs.Automata.ClaimText.{cube_text};
ghost use Rattle.ltl_streams.specs.Printing.{Prints};
ghost use Rattle.ltl_text.specs.Names.{HasNames};

use crate::literal_texts::LiteralTexts;
use ltl_sets::Cube;
use ltl_streams::{ByteSink, Printer};
use std::alloc::Allocator;

/// Writes the literals in brackets with `&&` between them, or `(1)` if there is none.
pub fn put_guard<A: Allocator, S: ByteSink>(
    cube: &Cube,
    texts: &LiteralTexts<'_, '_, A>,
    output: &mut Printer<'_, S>,
)
    requires { HasNames (length texts.now) cube.now }
    ensures { Prints S.state output.old output.new (cube_text texts.now cube.now) }
{
    cube.invariant();
    let mut literals = cube.iter();
    let Some(first) = literals.next() else {
        output.put(b"(1)");
        return;
    };
    output.put(b"(");
    texts.put(first, output);
    for literal in literals {
        output.put(b" && ");
        texts.put(literal, output);
    }
    output.put(b")");
}
