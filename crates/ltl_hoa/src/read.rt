//! Reading an automaton from a reader or a source.

ghost use Rattle.std.specs.Prelude.{◌≡◌, MatchResult, IsErrOf, ⊤};
ghost use Rattle.ltl_spec.specs.Tools.Stage.{Open};
ghost use Rattle.ltl_hoa.specs.StreamReaderView.{new_stream_reader};
ghost use Rattle.ltl_hoa.specs.Reading.{AnswersHeld, IsOfText, LeavesStage, TakesFewer, TakesText, TakesUpTo};

use crate::fault::{HoaFault, HoaFaultKind};
use crate::marked::Marked;
use crate::stream_reader::{MOST_BYTES, StreamReader};
use ltl_streams::{ByteSource, LentReader};
use std::alloc::Allocator;
use std::io::Read;

/// The number of bytes that are read at a time.
const CHUNK: usize = 4_096;

/// Reads an automaton from a standard reader. It reads the text to its end, or up to one byte past the limit of 16 MiB, even if the text has a fault.
/// It stops earlier only if a read fails or memory is refused. Only the automaton, the current token, the open label and the names are held.
pub fn hoa_read<'a, A: Allocator, R: Read>(
    alloc: &'a A,
    reader: &mut R,
) -> Result<Marked<'a, A>, HoaFault>
    ensures read { AnswersHeld (R.remaining reader.old) result }
    ensures taken { MatchResult result (λ _. TakesText (R.remaining reader.old) (R.remaining reader.new))
        (λ fault. IsOfText fault → TakesText (R.remaining reader.old) (R.remaining reader.new)) }
    ensures failed { IsErrOf result HoaFault.CannotRead → TakesFewer (R.remaining reader.old) (R.remaining reader.new) }
    ensures bounded { TakesUpTo (R.remaining reader.old) (R.remaining reader.new) }
{
    hoa_read_from(alloc, &mut LentReader::new(reader))
}

/// The same as `hoa_read` for a source. If the source was open, it is broken afterwards if and only if a read failed, and never misused.
pub fn hoa_read_from<'a, A: Allocator, R: ByteSource>(
    alloc: &'a A,
    source: &mut R,
) -> Result<Marked<'a, A>, HoaFault>
    ensures read { AnswersHeld (R.state source.old).rest result }
    ensures taken { MatchResult result (λ _. TakesText (R.state source.old).rest (R.state source.new).rest)
        (λ fault. IsOfText fault → TakesText (R.state source.old).rest (R.state source.new).rest) }
    ensures failed { IsErrOf result HoaFault.CannotRead → TakesFewer (R.state source.old).rest (R.state source.new).rest }
    ensures bounded { TakesUpTo (R.state source.old).rest (R.state source.new).rest }
    ensures same { (R.state source.new).through ≡ (R.state source.old).through }
    ensures stage { (R.state source.old).stage ≡ Open → LeavesStage result (R.state source.new).stage }
{
    let mut stream_reader = StreamReader::new(alloc);
    read_by(&mut stream_reader, source)
}

/// The same with a `StreamReader` that has taken no byte.
fn read_by<'a, A: Allocator, R: ByteSource>(
    stream_reader: &mut StreamReader<'a, A>,
    source: &mut R,
) -> Result<Marked<'a, A>, HoaFault>
    requires { stream_reader.old ≡ new_stream_reader }
    ensures read { AnswersHeld (R.state source.old).rest result }
    ensures taken { MatchResult result (λ _. TakesText (R.state source.old).rest (R.state source.new).rest)
        (λ fault. IsOfText fault → TakesText (R.state source.old).rest (R.state source.new).rest) }
    ensures failed { IsErrOf result HoaFault.CannotRead → TakesFewer (R.state source.old).rest (R.state source.new).rest }
    ensures bounded { TakesUpTo (R.state source.old).rest (R.state source.new).rest }
    ensures same { (R.state source.new).through ≡ (R.state source.old).through }
    ensures stage { (R.state source.old).stage ≡ Open → LeavesStage result (R.state source.new).stage }
{
    let mut chunk = [0u8; CHUNK];
    let mut given = 0usize;
    'pieces: while given < MOST_BYTES {
        let room = CHUNK.min(MOST_BYTES - given);
        match source.read(&mut chunk[..room]) {
            Ok(0) => return stream_reader.finish(),
            Ok(count) => {
                stream_reader.take_chunk(&chunk[..count])?;
                given += count;
            }
            Err(_) => return Err(HoaFault::CannotRead),
        }
    }
    match source.read(&mut chunk[..1]) {
        Ok(0) => stream_reader.finish(),
        Ok(_) => Err(HoaFault::AtLine(stream_reader.line(), HoaFaultKind::LimitPassed)),
        Err(_) => Err(HoaFault::CannotRead),
    }
}
