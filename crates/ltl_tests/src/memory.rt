//! A file and a standard input whose bytes are known.

use ltl_cli::{Files, Source, TextSource};

/// An automaton whose only word never has `p`.
pub(crate) const LOOP: &[u8] =
    b"HOA: v1\nStates: 1\nStart: 0\nAP: 1 \"p\"\nAcceptance: 1 Inf(0)\n--BODY--\nState: 0 {0}\n[!0] 0\n--END--\n";

/// One file with this name and this text, and a standard input with this one. It counts what is opened, up to the greatest number.
#[derive(Clone, Copy)]
pub(crate) struct Memory<'t> {
    pub(crate) name: &'t str,
    pub(crate) file: &'t [u8],
    pub(crate) input: &'t [u8],
    pub(crate) count: u64,
}

impl<'t> Files for Memory<'t> {
    type File = TextSource<'t>;

    type Input = TextSource<'t>;

    ghost use Rattle.std.specs.Prelude.{◌≡◌, ◌⊎◌, length, min};
    ghost use Rattle.ltl_spec.specs.Tools.Outcome.{Ended, NotOpened};

    ghost Stands = { λ m name input. (name ≡ m.name.now) × (input ≡ Ended m.file.now) ⊎ ¬ (name ≡ m.name.now) × (input ≡ NotOpened) };

    ghost Comes = { λ m input. input ≡ Ended m.input.now };

    ghost Opened = { λ m log. m.count ≡ min (length log) 18446744073709551615 };

    fn open(&mut self, name: &str) -> Source<TextSource<'t>> {
        self.count = self.count.saturating_add(1);
        if name == self.name {
            Source::Input(TextSource::new(self.file))
        } else {
            Source::NotOpened
        }
    }

    fn input(&mut self) -> TextSource<'t> {
        self.count = self.count.saturating_add(1);
        TextSource::new(self.input)
    }
}
