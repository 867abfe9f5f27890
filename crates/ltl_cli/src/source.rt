//! Sources of a formula's or an automaton's text.

ghost use Rattle.std.specs.Prelude.{◌≡◌};
ghost use Rattle.ltl_spec.specs.Tools.Stage.{Misused};
ghost use Rattle.ltl_cli.specs.Openings.{IsClosable};

use ltl_streams::{ByteSource, ReaderSource};
use std::io::Read;

/// Where a text comes from.
#[derive(Debug, Drop)]
pub enum Source<R> {
    /// The command line has the text.
    Text,
    /// The reader has the text.
    Input(R),
    /// The file with the text could not be opened.
    NotOpened,
}

/// A byte source that is closed when it isn't needed any more. A type parameter with this bound can't be dropped.
pub trait ClosableSource: ByteSource {
    /// Closes the source. No call on it may have followed one that failed or found the end.
    fn close(self)
        requires { ¬ ((Self.state self).stage ≡ Misused) };
}

impl<R: Read + Drop> ClosableSource for ReaderSource<R> {
    fn close(self) {}
}

impl<R: ClosableSource> Source<R> {
    /// Closes the reader, if there is one.
    pub fn close(self)
        requires { IsClosable R.state self }
    {
        match self {
            Source::Input(reader) => reader.close(),
            Source::Text | Source::NotOpened => {}
        }
    }
}
