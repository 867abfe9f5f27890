//! Readers of the standard library as byte sources.

ghost use Rattle.std.specs.Prelude.{◌≡◌, ℕ, Option, None, MatchResult};
ghost use Rattle.ltl_streams.specs.Streams.{FailsToGive, GivesSome};
ghost use Rattle.ltl_streams.specs.StageView.{source_at};

use crate::source::{ByteSource, SourceFault};
use crate::stage::Stage;
use std::io::Read;

/// A source over a reader that it owns. After an error or the end of the input the reader isn't called again.
#[derive(Drop)]
pub struct ReaderSource<R> {
    reader: R,
    stage: Stage,
}

/// A source over a reader that it borrows. After an error or the end of the input the reader isn't called again.
#[derive(Drop)]
pub struct LentReader<'r, R> {
    reader: &'r mut R,
    stage: Stage,
}

impl<R> ReaderSource<R> {
    /// A source that wasn't read yet.
    pub fn new(reader: R) -> ReaderSource<R>
        ensures same { result.reader ≡ reader }
        ensures stage { result.stage ≡ Stage.Open }
    {
        ReaderSource {
            reader,
            stage: Stage::Open,
        }
    }
}

impl<'r, R> LentReader<'r, R> {
    /// A source that wasn't read yet.
    pub fn new(reader: &'r mut R) -> LentReader<'r, R>
        ensures same { result.reader.ghost_name ≡ reader.entry.ghost_name }
        ensures now { result.reader.now ≡ reader.old }
        ensures stage { result.stage ≡ Stage.Open }
    {
        LentReader {
            reader,
            stage: Stage::Open,
        }
    }
}

/// Calls the reader once if the stage admits a call, and sets the stage.
fn read_once<R: Read>(
    reader: &mut R,
    stage: &mut Stage,
    room: &mut [u8],
) -> Result<usize, SourceFault>
    ensures { (through : Option ℕ) → MatchResult result
        (λ n. GivesSome (source_at through (R.remaining reader.old) stage.old) (source_at through (R.remaining reader.new) stage.new) n room.new)
        (λ _. FailsToGive (source_at through (R.remaining reader.old) stage.old) (source_at through (R.remaining reader.new) stage.new)) }
{
    if !stage.admits() {
        return Err(SourceFault);
    }
    match reader.read(room) {
        Ok(count) => {
            if count == 0 && !room.is_empty() {
                *stage = Stage::Closed;
            }
            Ok(count)
        }
        Err(_) => {
            *stage = Stage::Broken;
            Err(SourceFault)
        }
    }
}

impl<R: Read> ByteSource for ReaderSource<R> {
    ghost use Rattle.std.specs.Prelude.{None};
    ghost use Rattle.ltl_streams.specs.StageView.{source_at};

    ghost state = { λ s. source_at None (R.remaining s.reader) s.stage };

    fn read(&mut self, room: &mut [u8]) -> Result<usize, SourceFault> {
        read_once(&mut self.reader, &mut self.stage, room)
    }
}

impl<R: Read> ByteSource for LentReader<'_, R> {
    ghost use Rattle.std.specs.Prelude.{Some};
    ghost use Rattle.ltl_streams.specs.StageView.{source_at};

    ghost state = { λ s. source_at (Some s.reader.ghost_name) (R.remaining s.reader.now) s.stage };

    fn read(&mut self, room: &mut [u8]) -> Result<usize, SourceFault> {
        read_once(self.reader, &mut self.stage, room)
    }
}
