//! An automaton and a run of it, prepared for drawing.

ghost use Rattle.std.specs.Prelude.{◌≡◌, ◌<◌, flat_map, option_map, All, IfOk, OnOk, OnErr};
ghost use Rattle.std.specs.Io.KnownBytes.{Appends};
ghost use Rattle.ltl_streams.specs.Streams.{AppendsBeginning, Breaks, Takes};
ghost use Rattle.std.specs.List.{range_with_len};
ghost use Rattle.ltl_pictures.specs.DotText.{state_text};
ghost use Rattle.ltl_pictures.specs.Picked.{IsPick};
ghost use Rattle.ltl_streams.specs.Printing.{Prints};
ghost use Rattle.ltl_pictures.specs.RunText.{is_picked, named_of, note_of, picks_in, run_text};

use crate::acceptance::is_state_based;
use crate::arrows::{Row, put_arrows};
use crate::flags::{Flags, set_flags};
use crate::order::orders;
use crate::pick::Pick;
use crate::picture::{is_double, put_head, put_node};
use ltl_hoa::{HoaNames, Marked};
use ltl_models::order::Places;
use ltl_streams::{ByteSink, Printer, WriteFault, WriterSink};
use std::alloc::{AllocError, Allocator};
use std::io::Write;
use std::marker::Model;

/// An automaton with its names and the edges of a run, or `None` if there is no accepting run. The edges of each state are sorted by target, and a flag says
/// which of them the run takes.
#[derive(Drop)]
pub struct RunDrawing<'a, A: Allocator> {
    automaton: Marked<'a, A>,
    names: HoaNames<'a, A>,
    run: Option<Vec<Pick, &'a A>>,
    orders: Vec<Places<'a, A>, &'a A>,
    flags: Vec<Flags<'a, A>, &'a A>,
    by_states: bool,
}

impl<'a, A: Allocator> Model for RunDrawing<'a, A> {
    ghost use Rattle.std.specs.Prelude.{map, option_map};
    ghost use Rattle.ltl_streams.specs.Printing.{Prints};
    ghost use Rattle.ltl_pictures.specs.RunText.{RunPicture, picks_in};
    ghost use Rattle.ltl_pictures.specs.Picked.{IsRunDrawing};

    ghost Value = { RunPicture };

    ghost view = { λ d. record { automaton = d.automaton; names = d.names; run = option_map (λ v. v.items) d.run } };

    ghost invariant = { λ d. IsRunDrawing (picks_in (option_map (λ v. v.items) d.run)) d.automaton (map (λ p. p.items) d.orders.items) d.flags.items d.by_states };
}

/// The edges of the run; none if there is no run.
fn picks<'r, 'a, A: Allocator>(run: &'r Option<Vec<Pick, &'a A>>) -> &'r [Pick]
    ensures { result.now ≡ picks_in (option_map (λ v. v.items) run.now) }
{
    match run {
        Some(picks) => picks.as_slice(),
        None => &[],
    }
}

/// The note in the title of the graph.
fn note<'a, A: Allocator>(run: &Option<Vec<Pick, &'a A>>) -> &'static [u8]
    ensures { result.now ≡ note_of (option_map (λ v. v.items) run.now) }
{
    match run {
        Some(_) => b"",
        None => b"\\nno run on this word is accepting",
    }
}

impl<'a, A: Allocator> RunDrawing<'a, A> {
    /// Sorts the edges of each state by target, and finds those that the run takes. Each pick is an edge of the automaton. A state that `names` has no name
    /// for is drawn with its number alone.
    pub fn new(
        alloc: &'a A,
        automaton: Marked<'a, A>,
        names: HoaNames<'a, A>,
        run: Option<Vec<Pick, &'a A>>,
    ) -> Result<RunDrawing<'a, A>, AllocError>
        requires { All (IsPick automaton) (picks_in (option_map (λ v. v.items) run)) }
        ensures { IfOk result (λ d. d ≡
            record { automaton = automaton.entry; names = names.entry; run = option_map (λ v. v.items) run.entry }) }
    {
        let orders = orders(alloc, &automaton)?;
        let flags = set_flags(alloc, &automaton, picks(&run))?;
        let by_states = is_state_based(&automaton);
        Ok(RunDrawing {
            automaton,
            names,
            run,
            orders,
            flags,
            by_states,
        })
    }

    /// Writes a state and the arrows from it.
    fn put_state<S: ByteSink>(&self, k: usize, out: &mut Printer<'_, S>)
        requires { k < self.now.automaton.states }
        ensures { Prints S.state out.old out.new (state_text (named_of self.now) (is_picked (picks_in self.now.run)) k) }
    {
        self.automaton.invariant();
        let edges = self.automaton.edges(k);
        let flags = &self.flags[k];
        let double = is_double(self.by_states, edges);
        put_node(self.names.state(k), double, flags.is_one_set(), k, out);
        let row = Row {
            edges,
            places: self.orders[k].as_slice(),
            taken: flags.as_slice(),
        };
        put_arrows(self.automaton.names(), !self.by_states, row, k, out);
    }

    /// Writes all states.
    fn put_states<S: ByteSink>(&self, out: &mut Printer<'_, S>)
        ensures { Prints S.state out.old out.new
            (flat_map (state_text (named_of self.now) (is_picked (picks_in self.now.run))) (range_with_len 0 self.now.automaton.states)) }
    {
        for k in 0..self.automaton.len() {
            self.put_state(k, out);
        }
    }

    /// Writes the automaton as a graph in Graphviz' DOT language, the run in red. It allocates nothing. After an error of the sink it writes nothing more.
    pub fn put_dot<S: ByteSink>(&self, sink: &mut S) -> Result<(), WriteFault>
        ensures ok { OnOk result (Takes (S.state sink.old) (S.state sink.new) (run_text self.now)) }
        ensures err { OnErr result (Breaks (S.state sink.old) (S.state sink.new) (run_text self.now)) }
    {
        let mut out = Printer::new(sink);
        put_head(&self.automaton, &self.names, note(&self.run), &mut out);
        self.put_states(&mut out);
        out.put(b"}\n");
        out.end()
    }

    /// Like `put_dot`, to a standard writer, which isn't flushed.
    pub fn dot_to<W: Write>(&self, writer: &mut W) -> Result<(), WriteFault>
        ensures ok { OnOk result (Appends (W.contents writer.old) (W.contents writer.new) (run_text self.now)) }
        ensures err { OnErr result (AppendsBeginning (W.contents writer.old) (W.contents writer.new) (run_text self.now)) }
    {
        self.put_dot(&mut WriterSink::new(writer))
    }
}
