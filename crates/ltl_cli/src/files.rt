//! The files that a program can open, and its standard input.

ghost use Rattle.std.specs.Prelude.{List, ℕ, [], ◌∷◌};
ghost use Rattle.ltl_spec.specs.Tools.Outcome as spec;
ghost use Rattle.ltl_cli.specs.Inputs.{IsFileOf, TurnsOut};
ghost use Rattle.ltl_cli.specs.Openings.{Opening, NamedFile, StandardInput, Opens};

use crate::source::{ClosableSource, Source};

/// A file system and a standard input, which record what was opened.
pub trait Files {
    /// An open file.
    type File: ClosableSource;

    /// The standard input.
    type Input: ClosableSource;

    // Which inputs the file with a name may give.
    ghost Stands: { Self → List ℕ → spec.Input → Type 0 };

    // Which inputs the standard input may give.
    ghost Comes: { Self → spec.Input → Type 0 };

    // Which lists may be what was opened so far, in this order.
    ghost Opened: { Self → List Opening → Type 0 };

    /// Opens the file with this name for reading from its beginning. The result is `NotOpened` if that fails.
    fn open(&mut self, name: &str) -> Source<Self::File>
        ensures source { IsFileOf Self.File.state (Stands self.old name.now) result }
        ensures opened { Opens Opened Stands Comes (NamedFile name.now ∷ []) self.old self.new };

    /// The standard input, from which nothing has been read.
    fn input(&mut self) -> Self::Input
        ensures source { TurnsOut Self.Input.state (Comes self.old) result }
        ensures opened { Opens Opened Stands Comes (StandardInput ∷ []) self.old self.new };
}
