//! Byte sources: where an input comes from.

ghost use Rattle.std.specs.Prelude.{MatchResult};
ghost use Rattle.ltl_streams.specs.Streams.{SourceState, FailsToGive, GivesSome};

use thiserror::Error;

/// A read failed.
#[derive(Clone, Copy, Debug, PartialEq, Eq, Error)]
#[error("cannot read")]
pub struct SourceFault;

/// An input that records how the calls on it went. After an error or the end of the input every further call is an error.
pub trait ByteSource {
    ghost state: { Self → SourceState };

    /// Puts the next bytes at the beginning of `room`, and returns their number. It is 0 only at the end of the input, or if `room` is empty.
    fn read(&mut self, room: &mut [u8]) -> Result<usize, SourceFault>
        ensures { MatchResult result (λ n. GivesSome (state self.old) (state self.new) n room.new) (λ _. FailsToGive (state self.old) (state self.new)) };
}
