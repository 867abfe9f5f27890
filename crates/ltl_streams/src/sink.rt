//! Byte sinks: where an output goes.

ghost use Rattle.std.specs.Prelude.{MatchResult};
ghost use Rattle.ltl_streams.specs.Streams.{SinkState, Fails, Flushes, TakesSome};

use thiserror::Error;

/// A write or a flush failed.
#[derive(Clone, Copy, Debug, PartialEq, Eq, Error)]
#[error("cannot write")]
pub struct WriteFault;

/// An output that records how the calls on it went. After an error or a flush every further call is an error.
pub trait ByteSink {
    ghost state: { Self → SinkState };

    /// Writes a prefix of the bytes, and returns its length. The prefix is empty only if there are no bytes.
    fn write(&mut self, bytes: &[u8]) -> Result<usize, WriteFault>
        ensures { MatchResult result (λ n. TakesSome (state self.old) (state self.new) n bytes.now) (λ _. Fails (state self.old) (state self.new)) };

    /// Hands everything written on to its destination, and ends the output.
    fn flush(&mut self) -> Result<(), WriteFault>
        ensures { MatchResult result (λ _. Flushes (state self.old) (state self.new)) (λ _. Fails (state self.old) (state self.new)) };
}
