//! The end of a run: the message of a refusal and the exit status.

ghost use Rattle.std.specs.Prelude.{◌≡◌};
ghost use Rattle.ltl_cli.specs.Runs.{IsTold};
ghost use Rattle.ltl_comparison.specs.Runs.{message_with, status_with};

use crate::message;
use crate::refusal::Refused;
use ltl_streams::ByteSink;
use ltl_words::Status;

/// Writes the message of a refusal, as far as the stream takes it, and returns the exit status.
pub(crate) fn finish<M: ByteSink>(outcome: Result<Status, Refused>, message: &mut M) -> u8
    ensures status { result ≡ status_with outcome }
    ensures message { IsTold (M.state message.old) (M.state message.new) (message_with outcome) }
{
    match outcome {
        Ok(status) => status.number(),
        Err(refused) => {
            message::write(refused, message);
            refused.refusal.status().number()
        }
    }
}
