//! Printing a word.

ghost use Rattle.std.specs.Prelude.{◌≡◌, ◌<◌, ◌==◌, ◌++◌, if◌then◌else◌, [], codes, length, map, OnOk, OnErr};
ghost use Rattle.std.specs.List.{AllByRecursion};
ghost use Rattle.std.specs.Io.KnownBytes.{Appends};
ghost use Rattle.ltl_streams.specs.Printing.{Prints};
ghost use Rattle.ltl_streams.specs.Streams.{AppendsBeginning, Breaks, Takes};
ghost use Rattle.ltl_spec.specs.Words.LassoText.{lasso_text, letter_text};
ghost use Rattle.ltl_word.specs.LassoView.{letter_of};

use crate::lasso::Lasso;
use crate::name::OwnedName;
use ltl_sets::RowSet;
use ltl_streams::{ByteSink, Printer, WriteFault, WriterSink};
use std::alloc::Allocator;
use std::io::Write;

/// Writes a letter.
fn put_letter<A: Allocator, S: ByteSink>(
    names: &[OwnedName<'_, A>],
    letter: &RowSet,
    out: &mut Printer<'_, S>,
)
    requires { AllByRecursion (λ i. i < length names.now) letter.now }
    ensures { Prints S.state out.old out.new (letter_text (letter_of (map (λ n. n.items) names.now) letter.now)) }
{
    out.put(b"{");
    let mut between: &[u8] = b"";
    for place in letter.iter() {
        out.put(between);
        out.put(names[place].as_slice());
        between = b",";
    }
    out.put(b"}");
}

/// What is written before the letter with this number.
fn front(i: usize, stem: usize) -> &'static [u8]
    ensures { result.now ≡ (if i == 0 then [] else codes "; ") ++ (if i == stem then codes "cycle " else []) }
{
    match (i == 0, i == stem) {
        (true, true) => b"cycle ",
        (true, false) => b"",
        (false, true) => b"; cycle ",
        (false, false) => b"; ",
    }
}

impl<'a, A: Allocator> Lasso<'a, A> {
    /// Writes the text of the word to a printer. The names of each letter are sorted by their bytes. It allocates nothing.
    pub fn put<S: ByteSink>(&self, out: &mut Printer<'_, S>)
        ensures { Prints S.state out.old out.new (lasso_text self.now) }
    {
        for i in 0..self.letters.len() {
            out.put(front(i, self.stem));
            put_letter(self.names.as_slice(), &self.letters[i], out);
        }
    }

    /// Writes the text of the word to a sink, in pieces of up to 16 KiB, without an end of line. A name that is longer is a piece of its own. It
    /// allocates nothing.
    pub fn write_to<S: ByteSink>(&self, sink: &mut S) -> Result<(), WriteFault>
        ensures ok { OnOk result (Takes (S.state sink.old) (S.state sink.new) (lasso_text self.now)) }
        ensures err { OnErr result (Breaks (S.state sink.old) (S.state sink.new) (lasso_text self.now)) }
    {
        let mut out = Printer::new(sink);
        self.put(&mut out);
        out.end()
    }

    /// The same as `write_to` to a standard writer, which isn't flushed.
    pub fn text_to<W: Write>(&self, w: &mut W) -> Result<(), WriteFault>
        ensures ok { OnOk result (Appends (W.contents w.old) (W.contents w.new) (lasso_text self.now)) }
        ensures err { OnErr result (AppendsBeginning (W.contents w.old) (W.contents w.new) (lasso_text self.now)) }
    {
        self.write_to(&mut WriterSink::new(w))
    }
}
