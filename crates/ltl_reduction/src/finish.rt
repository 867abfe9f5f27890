//! The end of a run: the message of a refusal and the exit status.

ghost use Rattle.std.specs.Prelude.{◌≡◌};
ghost use Rattle.ltl_cli.specs.Runs.{IsTold};
ghost use Rattle.ltl_reduction.specs.Runs.{message_with, status_with};

use crate::message;
use ltl_cli::Refusal;
use ltl_streams::ByteSink;

/// Writes the message of a refusal, as far as the stream takes it, and returns the exit status.
pub(crate) fn finish<M: ByteSink>(outcome: Result<(), Refusal>, message: &mut M) -> u8
    ensures status { result ≡ status_with outcome }
    ensures message { IsTold (M.state message.old) (M.state message.new) (message_with outcome) }
{
    match outcome {
        Ok(()) => 0,
        Err(refusal) => {
            message::write(refusal, message);
            refusal.status().number()
        }
    }
}
