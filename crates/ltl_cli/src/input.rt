//! Reading of formulas, from the command line or from a file, and of automata in memory.

ghost use Rattle.std.specs.Prelude.{◌≡◌, [], take, IfOk, IfSome, IsErrOf};
ghost use Rattle.ltl_spec.specs.Formulas.Grammar.{IsTextOf};
ghost use Rattle.ltl_spec.specs.Hoa.HoaReading.{stated_form};
ghost use Rattle.ltl_spec.specs.Tools.Limits.{stated_limits};
ghost use Rattle.ltl_spec.specs.Tools.Programs.{InputReads, ReadsHoa};
ghost use Rattle.ltl_spec.specs.Tools.Stage.{Open};
ghost use Rattle.ltl_spec.specs.Tools.Outcome as spec;
ghost use Rattle.ltl_syntax.specs.FormulaView.{reading_of};
ghost use Rattle.ltl_words.specs.Plans.{formula_word};
ghost use Rattle.ltl_cli.specs.Inputs.{HoldsText, IsOpen, IsReadFrom, IsReadOf, TakesFewer, WasFormula, WasStream, most_taken};
ghost use Rattle.ltl_cli.specs.Refusals.{TakesStep};

use crate::refusal::Refusal;
use crate::source::Source;
use crate::text_source::TextSource;
use ltl_hoa::{Marked, hoa_read_from};
use ltl_streams::ByteSource;
use ltl_syntax::{Formula, TEXT_LIMIT, read};
use ltl_words::FormulaWord;
use std::alloc::{AllocError, AllocFailed, Allocator};

/// The most bytes that one read requests.
const CHUNK: usize = 4096;

/// The bytes of a stream up to its end, but at most `most` of them. Nothing is read after `most` bytes.
#[tactic(auto, using(crate::proofs::StreamLaws::given_open, crate::proofs::StreamLaws::went_wrong, crate::proofs::StreamLaws::went_so_far))]
pub fn read_text<'a, A: Allocator, R: ByteSource>(
    alloc: &'a A,
    reader: &mut R,
    most: usize,
) -> Result<Vec<u8, &'a A>, Refusal>
    requires { (R.state reader.old).stage ≡ Open }
    ensures text { IfOk result (λ v. IfSome (R.state reader.old).rest (λ xs. v.items ≡ take most xs)) }
    ensures ways { IsReadOf most (R.state reader.old) (R.state reader.new) result }
    ensures same { (R.state reader.new).through ≡ (R.state reader.old).through }
{
    let mut text = Vec::new(alloc);
    let mut chunk = [0u8; CHUNK];
    'pieces: while text.len() < most {
        let room = CHUNK.min(most - text.len());
        match reader.read(&mut chunk[..room]) {
            Ok(0) => return Ok(text),
            Ok(n) => match text.extend_from_slice(&chunk[..n]) {
                Ok(()) => {}
                Err(_) => return Err(Refusal::OutOfMemory),
            },
            Err(_) => return Err(Refusal::CannotRead),
        }
    }
    Ok(text)
}

/// Reads a formula from a text.
#[tactic(auto, using(crate::proofs::TextLaws::formula_reads))]
pub fn formula_of<'a, A: Allocator>(alloc: &'a A, text: &[u8]) -> Result<Formula<'a, A>, Refusal>
    ensures given { IsReadFrom (spec.Given text.now) spec.NotOpened result }
    ensures step { TakesStep (InputReads stated_limits (spec.Text text.now)) reading_of result }
    ensures text { IfOk result (λ f. IsTextOf text.now (reading_of f)) }
{
    let formula = read(alloc, text)?;
    Ok(formula)
}

/// Reads an automaton from a text.
pub fn marked_of<'a, A: Allocator>(alloc: &'a A, text: &[u8]) -> Result<Marked<'a, A>, Refusal>
    ensures { TakesStep (ReadsHoa stated_limits stated_form text.now) (λ A. A) result }
{
    let mut source = TextSource::new(text);
    let automaton = hoa_read_from(alloc, &mut source)?;
    Ok(automaton)
}

/// Reads a formula from a file.
#[tactic(auto, using(crate::proofs::InputLaws::failed_few))]
pub fn read_file<'a, A: Allocator, R: ByteSource>(
    alloc: &'a A,
    reader: &mut R,
) -> Result<Formula<'a, A>, Refusal>
    requires { (R.state reader.old).stage ≡ Open }
    ensures read { (input : spec.Input) × WasStream most_taken (R.state reader.old) (R.state reader.new) input × IsReadFrom (spec.File []) input result }
    ensures failed { IsErrOf result Refusal.CannotRead → TakesFewer (R.state reader.old).rest (R.state reader.new).rest most_taken }
    ensures same { (R.state reader.new).through ≡ (R.state reader.old).through }
{
    let text = read_text(alloc, reader, TEXT_LIMIT + 1)?;
    formula_of(alloc, text.as_slice())
}

/// Reads the formula of a command line: its text, or the contents of its file, which the source gives. The source isn't read if the command line has the
/// text. Of a file at most `TEXT_LIMIT` + 1 bytes are read. If the command line names a file but the source is `Text`, the result is `CannotOpen`.
pub fn formula_from<'a, A: Allocator, R: ByteSource>(
    alloc: &'a A,
    word: FormulaWord<'_>,
    source: &mut Source<R>,
) -> Result<Formula<'a, A>, Refusal>
    requires { IsOpen R.state source.old }
    ensures read { (input : spec.Input) × WasFormula R.state source.old source.new input × IsReadFrom (formula_word word.entry) input result }
    ensures given { HoldsText (formula_word word.entry) → source.new ≡ source.old }
{
    match word {
        FormulaWord::Given(text) => formula_of(alloc, text.as_bytes()),
        FormulaWord::File(_) => match source {
            Source::Input(reader) => read_file(alloc, reader),
            Source::Text | Source::NotOpened => Err(Refusal::CannotOpen),
        },
    }
}
