//! Writers of the standard library as byte sinks.

ghost use Rattle.std.specs.Prelude.{◌≡◌};

use crate::sink::{ByteSink, WriteFault};
use crate::stage::Stage;
use std::io::Write;

/// A sink over a writer that it borrows. After an error or a flush the writer isn't called again.
#[derive(Drop)]
pub struct WriterSink<'w, W> {
    writer: &'w mut W,
    stage: Stage,
}

impl<'w, W> WriterSink<'w, W> {
    /// A sink that wasn't written to yet.
    pub fn new(writer: &'w mut W) -> WriterSink<'w, W>
        ensures same { result.writer.ghost_name ≡ writer.entry.ghost_name }
        ensures now { result.writer.now ≡ writer.old }
        ensures stage { result.stage ≡ Stage.Open }
    {
        WriterSink {
            writer,
            stage: Stage::Open,
        }
    }
}

impl<W: Write> ByteSink for WriterSink<'_, W> {
    ghost use Rattle.std.specs.Prelude.{Some};
    ghost use Rattle.ltl_streams.specs.StageView.{sink_at};

    ghost state = { λ s. sink_at (Some s.writer.ghost_name) (W.contents s.writer.now) s.stage };

    fn write(&mut self, bytes: &[u8]) -> Result<usize, WriteFault> {
        if !self.stage.admits() {
            return Err(WriteFault);
        }
        match self.writer.write(bytes) {
            Ok(count) if count > 0 || bytes.is_empty() => Ok(count),
            _ => {
                self.stage = Stage::Broken;
                Err(WriteFault)
            }
        }
    }

    fn flush(&mut self) -> Result<(), WriteFault> {
        if !self.stage.admits() {
            return Err(WriteFault);
        }
        match self.writer.flush() {
            Ok(()) => {
                self.stage = Stage::Closed;
                Ok(())
            }
            Err(_) => {
                self.stage = Stage::Broken;
                Err(WriteFault)
            }
        }
    }
}
