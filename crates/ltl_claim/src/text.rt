//! Reading a text from a source, in pieces.

ghost use Rattle.std.specs.Prelude.{◌≡◌, ◌⊎◌, IfOk, OnErr, IsErrOf, MatchResult, ⊤};
ghost use Rattle.ltl_spec.specs.Tools.Stage.{Open, Broken};
ghost use Rattle.ltl_claim.specs.Reading.{FailsStage, IsOfText, IsRead, StageRead, TakesFewer, TakesUpTo};

use crate::fault::ClaimFault;
use ltl_streams::ByteSource;
use std::alloc::Allocator;

/// The largest number of bytes in a text.
pub const MOST_BYTES: usize = 16_777_216;

/// The number of bytes that are read at a time.
const CHUNK: usize = 4_096;

/// The text of a source, up to its end or to one byte past the limit.
pub(crate) fn text_of<'a, A: Allocator, R: ByteSource>(
    alloc: &'a A,
    source: &mut R,
) -> Result<Vec<u8, &'a A>, ClaimFault>
    ensures read { IfOk result (λ text. IsRead (R.state source.old).rest (R.state source.new).rest text.items) }
    ensures told { MatchResult result (λ _. ⊤) (λ fault. ¬ (IsOfText fault)) }
    ensures failed { IsErrOf result ClaimFault.CannotRead → TakesFewer (R.state source.old).rest (R.state source.new).rest }
    ensures bounded { TakesUpTo (R.state source.old).rest (R.state source.new).rest }
    ensures same { (R.state source.new).through ≡ (R.state source.old).through }
    ensures stage { (R.state source.old).stage ≡ Open → MatchResult result (λ text. StageRead text.items (R.state source.new).stage)
        (λ fault. FailsStage fault (R.state source.new).stage) }
{
    let mut chunk = [0u8; CHUNK];
    let mut text = Vec::new(alloc);
    'pieces: while text.len() <= MOST_BYTES {
        let room = CHUNK.min(MOST_BYTES + 1 - text.len());
        match source.read(&mut chunk[..room]) {
            Ok(0) => return Ok(text),
            Ok(count) => text.extend_from_slice(&chunk[..count])?,
            Err(_) => return Err(ClaimFault::CannotRead),
        }
    }
    Ok(text)
}
