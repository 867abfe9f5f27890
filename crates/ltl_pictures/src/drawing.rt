//! An automaton, prepared for drawing.

ghost use Rattle.std.specs.Prelude.{◌≡◌, IfOk, OnOk, OnErr};
ghost use Rattle.std.specs.Io.KnownBytes.{Appends};
ghost use Rattle.ltl_streams.specs.Streams.{AppendsBeginning, Breaks, Takes};
ghost use Rattle.ltl_pictures.specs.DotText.{dot_text};

use crate::run_drawing::RunDrawing;
use ltl_hoa::{HoaNames, Marked};
use ltl_streams::{ByteSink, WriteFault, WriterSink};
use std::alloc::{AllocError, Allocator};
use std::io::Write;
use std::marker::Model;

/// An automaton with its names, and with the edges of each state sorted by target. It is drawn as with a run that has no edge.
#[derive(Drop)]
pub struct Drawing<'a, A: Allocator> {
    drawing: RunDrawing<'a, A>,
}

impl<'a, A: Allocator> Model for Drawing<'a, A> {
    ghost use Rattle.std.specs.Prelude.{◌≡◌, Some, []};
    ghost use Rattle.ltl_pictures.specs.NamedAutomaton.{NamedAutomaton};
    ghost use Rattle.ltl_pictures.specs.RunText.{named_of};

    ghost Value = { NamedAutomaton };

    ghost view = { λ d. named_of d.drawing };

    ghost invariant = { λ d. d.drawing.run ≡ Some [] };
}

impl<'a, A: Allocator> Drawing<'a, A> {
    /// Sorts the edges of each state by target. A state that `names` has no name for is drawn with its number alone.
    pub fn new(
        alloc: &'a A,
        automaton: Marked<'a, A>,
        names: HoaNames<'a, A>,
    ) -> Result<Drawing<'a, A>, AllocError>
        ensures { IfOk result (λ d. d ≡ record { automaton = automaton.entry; names = names.entry }) }
    {
        let drawing = RunDrawing::new(alloc, automaton, names, Some(Vec::new(alloc)))?;
        Ok(Drawing { drawing })
    }

    /// Writes the automaton as a graph in Graphviz' DOT language. It allocates nothing. After an error of the sink it writes nothing more.
    pub fn put_dot<S: ByteSink>(&self, sink: &mut S) -> Result<(), WriteFault>
        ensures ok { OnOk result (Takes (S.state sink.old) (S.state sink.new) (dot_text self.now)) }
        ensures err { OnErr result (Breaks (S.state sink.old) (S.state sink.new) (dot_text self.now)) }
    {
        self.drawing.put_dot(sink)
    }

    /// Like `put_dot`, to a standard writer, which isn't flushed.
    pub fn dot_to<W: Write>(&self, writer: &mut W) -> Result<(), WriteFault>
        ensures ok { OnOk result (Appends (W.contents writer.old) (W.contents writer.new) (dot_text self.now)) }
        ensures err { OnErr result (AppendsBeginning (W.contents writer.old) (W.contents writer.new) (dot_text self.now)) }
    {
        self.put_dot(&mut WriterSink::new(writer))
    }
}
