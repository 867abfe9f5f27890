//! Plans: the parsed command line.

/// The output that a command line requests. The automaton is in the file with the name, or in the standard input if there is no name.
#[derive(Clone, Copy, Debug)]
pub enum Plan<'a> {
    /// A drawing of the automaton, whose file may have a name.
    Picture(Option<&'a str>),
    /// A drawing of the automaton with an accepting run on the word that the text gives. The automaton's file may have a name.
    Run(&'a str, Option<&'a str>),
    /// A timeline of the word that the first text gives, with the formula that the second text gives, if there is one.
    Timeline(&'a str, Option<&'a str>),
}
