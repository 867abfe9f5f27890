//! Plans: the parsed command line.

ghost use Rattle.std.specs.Prelude.{◌≡◌};

/// The automaton that a command line names, and the form of the output.
#[derive(Clone, Copy, Debug)]
pub struct Plan<'a> {
    pub(crate) claim: bool,
    pub(crate) file: Option<&'a str>,
}

impl<'a> Plan<'a> {
    /// Whether the output is a never claim of Spin, in place of an automaton in HOA.
    pub fn claim(&self) -> bool
        ensures { result ≡ self.now.claim }
    {
        self.claim
    }

    /// The name of the automaton's file. Without a name the automaton is in the standard input.
    pub fn file(&self) -> Option<&'a str>
        ensures { result ≡ self.now.file }
    {
        self.file
    }
}
