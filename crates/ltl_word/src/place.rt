//! The places of the reader of words, which say what may come next.

/// What may come next in the text of a word.
#[derive(Clone, Copy)]
pub(crate) enum WordPlace {
    Letter,
    FirstName,
    Name,
    /// The rest of a name that begins at this offset, or what may follow it.
    InName(usize),
    AfterLetter,
    Blank,
    /// This rest of `cycle `.
    InWord(&'static [u8]),
}
