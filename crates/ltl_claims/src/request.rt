//! Plans: the parsed command line.

ghost use Rattle.std.specs.Prelude.{◌≡◌};

/// The claim that a command line names.
#[derive(Clone, Copy, Debug)]
pub struct Plan<'a> {
    pub(crate) file: Option<&'a str>,
}

impl<'a> Plan<'a> {
    /// The name of the claim's file. Without a name the claim is in the standard input.
    pub fn file(&self) -> Option<&'a str>
        ensures { result ≡ self.now.file }
    {
        self.file
    }
}
