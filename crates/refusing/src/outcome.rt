//! What a run of a program over memory left.

use crate::streams::Taken;

/// What a run left: its exit status, its output, and its message.
#[derive(Drop)]
pub struct Outcome {
    pub status: u8,
    pub output: Taken,
    pub message: Taken,
}

impl Outcome {
    /// Whether the run left these. The output has to be flushed once if `answered`, and never if not.
    pub fn is(&self, status: u8, output: &[u8], message: &str, answered: bool) -> bool {
        self.status == status
            && self.output.held.as_slice() == output
            && self.message.held.as_slice() == message.as_bytes()
            && self.output.flushes == if answered { 1 } else { 0 }
    }
}
