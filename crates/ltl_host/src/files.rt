//! The files and the standard input of a runtime.

ghost use Rattle.std.specs.Prelude.{◌≡◌};
ghost use Rattle.ltl_host.specs.Sources.{IsOpenedAs};

use ltl_cli::Source;
use ltl_streams::ReaderSource;
use std::fs::File;
use std::io;
use std::io::Read;
use std::rt::Files;

/// The files of a runtime, with a reader as the standard input. A file is opened by its name, as it was passed in. No clause of the kit says which files a
/// runtime has, so nothing is said of what was opened.
#[derive(Drop)]
pub struct HostFiles<'r, R, I> {
    rt: &'r R,
    input: I,
}

impl<'r, R, I> HostFiles<'r, R, I> {
    /// Makes the value. Nothing is opened or read yet.
    pub fn new(rt: &'r R, input: I) -> HostFiles<'r, R, I>
        ensures { result.input ≡ input }
    {
        HostFiles { rt, input }
    }
}

/// The source of a file. If the file wasn't opened, the reason isn't kept.
pub fn opened<F: Drop>(file: io::Result<F>) -> Source<ReaderSource<F>>
    ensures { IsOpenedAs file result }
{
    match file {
        Ok(file) => Source::Input(ReaderSource::new(file)),
        Err(_) => Source::NotOpened,
    }
}

impl<R: Files, I: Read + Copy + Drop> ltl_cli::Files for HostFiles<'_, R, I> {
    type File = ReaderSource<R::File>;

    type Input = ReaderSource<I>;

    ghost use Rattle.std.specs.Prelude.{⊤};
    ghost use Rattle.ltl_host.specs.Sources.{AnythingBehind};
    ghost use Rattle.ltl_cli.specs.Inputs.{IsStream};

    ghost Stands = { λ _ name input. AnythingBehind name input };

    ghost Comes = { λ h given. IsStream (I.remaining h.input) given };

    ghost Opened = { λ _ _. ⊤ };

    fn open(&mut self, name: &str) -> Source<ReaderSource<R::File>> {
        opened(File::open(self.rt, name))
    }

    fn input(&mut self) -> ReaderSource<I> {
        ReaderSource::new(self.input)
    }
}
