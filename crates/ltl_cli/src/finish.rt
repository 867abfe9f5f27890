//! The end of a run: the flush of the output, the message of a refusal, and the exit status.

ghost use Rattle.std.specs.Prelude.{◌≡◌, List, ℕ, OnOk, OnErr};
ghost use Rattle.ltl_streams.specs.Streams.{Breaks, SinkState, Takes};
ghost use Rattle.ltl_words.specs.Tools.{tool_of};
ghost use Rattle.ltl_cli.specs.Runs.{Finishes, IsTold, message_with, status_with};

use crate::message;
use crate::refusal::Refusal;
use ltl_streams::{ByteSink, WriteFault};
use ltl_words::{Status, Tool};

/// Flushes the output after all of a text was written to it, or returns why the text wasn't.
pub fn flushed<S: ByteSink>(
    written: Result<(), WriteFault>,
    output: &mut S,
) -> Result<(), WriteFault>
    ensures ok { OnOk result ((old : SinkState) (text : List ℕ) → OnOk written (Takes old (S.state output.old) text) → Finishes old (S.state output.new) text) }
    ensures err { OnErr result ((old : SinkState) (text : List ℕ) → OnOk written (Takes old (S.state output.old) text)
        → OnErr written (Breaks old (S.state output.old) text) → Breaks old (S.state output.new) text) }
{
    written?;
    output.flush()
}

/// Writes the message of a refusal, as far as the stream takes it, and returns the exit status.
pub fn finish<M: ByteSink>(tool: Tool, outcome: Result<Status, Refusal>, message: &mut M) -> u8
    ensures status { result ≡ status_with outcome }
    ensures message { IsTold (M.state message.old) (M.state message.new) (message_with (tool_of tool) outcome) }
{
    match outcome {
        Ok(status) => status.number(),
        Err(refusal) => {
            message::write(tool, refusal, message);
            refusal.status().number()
        }
    }
}
