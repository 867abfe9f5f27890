//! Writing all bytes of a slice.

ghost use Rattle.std.specs.Prelude.{OnOk, OnErr};
ghost use Rattle.ltl_streams.specs.Streams.{Breaks, Takes};

use crate::sink::{ByteSink, WriteFault};

/// Writes all bytes, by as many writes as the sink needs. No write is repeated after an error, and an empty slice causes no call.
#[tactic(auto, using(crate::proofs::StreamLemmas::breaks_there))]
pub fn write_whole<S: ByteSink>(sink: &mut S, bytes: &[u8]) -> Result<(), WriteFault>
    ensures ok { OnOk result (Takes (S.state sink.old) (S.state sink.new) bytes.now) }
    ensures err { OnErr result (Breaks (S.state sink.old) (S.state sink.new) bytes.now) }
{
    let mut at = 0usize;
    'pieces: while at < bytes.len() {
        at += sink.write(&bytes[at..])?;
    }
    Ok(())
}
