//! A text in memory as a byte source.

ghost use Rattle.std.specs.Prelude.{◌≡◌, ◌≢◌};
ghost use Rattle.ltl_streams.specs.declared.stage.Stage.TheVariants.{Broken};

use crate::source::ClosableSource;
use ltl_streams::{ByteSource, SourceFault, Stage};

/// The rest of a text in memory, and the stage of the stream. A read fails only after the end of the text was reported.
#[derive(Drop)]
pub struct TextSource<'t> {
    rest: &'t [u8],
    stage: Stage,
    ghost unbroken: { stage ≢ Broken },
}

impl<'t> TextSource<'t> {
    /// A source that has not been read.
    pub fn new(text: &'t [u8]) -> TextSource<'t>
        ensures rest { result.rest.now ≡ text.now }
        ensures stage { result.stage ≡ Stage.Open }
    {
        TextSource {
            rest: text,
            stage: Stage::Open,
        }
    }
}

impl ByteSource for TextSource<'_> {
    ghost use Rattle.std.specs.Prelude.{Some, None};
    ghost use Rattle.ltl_streams.specs.StageView.{source_at};

    ghost state = { λ s. source_at None (Some s.rest.now) s.stage };

    fn read(&mut self, room: &mut [u8]) -> Result<usize, SourceFault> {
        if self.stage != Stage::Open {
            self.stage = Stage::Misused;
            return Err(SourceFault);
        }
        let count = room.len().min(self.rest.len());
        room[..count].copy_from_slice(&self.rest[..count]);
        self.rest = &self.rest[count..];
        if count == 0 && !room.is_empty() {
            self.stage = Stage::Closed;
        }
        Ok(count)
    }
}

impl ClosableSource for TextSource<'_> {
    fn close(self) {}
}
