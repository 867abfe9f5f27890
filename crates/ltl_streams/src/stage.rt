//! The protocol of a stream, as a state.

ghost use Rattle.std.specs.Prelude.{◌≡◌, ◌↔◌, IsTrue, if◌then◌else◌};

/// How the calls on a stream went so far.
#[derive(Clone, Copy, Debug, PartialEq, Eq)]
pub enum Stage {
    /// No call failed, and the stream hasn't ended: each write took some of its bytes, and each read gave some.
    Open,
    /// The last call flushed the output, or met the end of the input.
    Closed,
    /// The last call failed.
    Broken,
    /// The stream was called after it was closed or broken.
    Misused,
}

impl Stage {
    /// Whether the stream may be called. If not, it is misused from here on.
    #[inline(always)]
    pub(crate) fn admits(&mut self) -> bool
        ensures admitted { IsTrue result ↔ self.old ≡ Stage.Open }
        ensures stage { self.new ≡ (if result then Stage.Open else Stage.Misused) }
    {
        let admitted = *self == Stage::Open;
        if !admitted {
            *self = Stage::Misused;
        }
        admitted
    }
}
