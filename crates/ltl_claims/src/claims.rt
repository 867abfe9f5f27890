//! The program over byte streams: from a claim's text to that of its automaton.

ghost use Rattle.std.specs.Prelude.{◌≡◌, ◌+◌, Ok};
ghost use Rattle.ltl_spec.specs.Tools.Stage.{Open};
ghost use Rattle.ltl_spec.specs.Tools.Outcome as spec;
ghost use Rattle.ltl_cli.specs.Inputs.{IsOpen, WasStream};
ghost use Rattle.ltl_claim.specs.ClaimAnswer.{most_bytes};
ghost use Rattle.ltl_cli.specs.Runs.{Shows, StaysAt};
ghost use Rattle.ltl_claims.specs.Plans.{Request, requested};
ghost use Rattle.ltl_claims.specs.Runs.{IsClaimRead, IsOutcome, IsTextMade, MayClaim, WasClaim};

use crate::finish::finish;
use crate::refusal::Refusal;
use crate::request::Plan;
use ltl_claim::{Claim, claim_read_from};
use ltl_claim_hoa::claim_hoa;
use ltl_cli::{Source, flushed};
use ltl_streams::{ByteSink, ByteSource, write_whole};
use ltl_words::PlanFault;
use std::alloc::Allocator;

/// Reads a claim from a stream.
fn claim_from<'a, A: Allocator, R: ByteSource>(
    alloc: &'a A,
    reader: &mut R,
) -> Result<Claim<'a, A>, Refusal>
    requires { (R.state reader.old).stage ≡ Open }
    ensures { (input : spec.Input) × WasStream (most_bytes + 1) (R.state reader.old) (R.state reader.new) input × IsClaimRead input result }
{
    match claim_read_from(alloc, reader) {
        Ok(claim) => Ok(claim),
        Err(fault) => Err(Refusal::of_claim(fault)),
    }
}

/// Reads a claim from the source. `Source::Text` holds no claim; it counts as a file that couldn't be opened.
fn read<'a, A: Allocator, R: ByteSource>(
    alloc: &'a A,
    source: &mut Source<R>,
) -> Result<Claim<'a, A>, Refusal>
    requires { IsOpen R.state source.old }
    ensures { (input : spec.Input) × WasClaim R.state source.old source.new input × IsClaimRead input result }
{
    match source {
        Source::Input(reader) => claim_from(alloc, reader),
        Source::Text | Source::NotOpened => Err(Refusal::CannotOpen),
    }
}

/// Reads a claim from the source, and makes the text of its automaton.
fn text_of<'a, A: Allocator, R: ByteSource>(
    alloc: &'a A,
    source: &mut Source<R>,
) -> Result<Vec<u8, &'a A>, Refusal>
    requires { IsOpen R.state source.old }
    ensures { (input : spec.Input) × WasClaim R.state source.old source.new input × IsTextMade input (λ text. text.items) result }
{
    let claim = read(alloc, source)?;
    match claim_hoa(alloc, &claim) {
        Ok(text) => Ok(text),
        Err(_) => Err(Refusal::OutOfMemory),
    }
}

/// Reads a claim from the source, and writes the text of its automaton.
fn printed<A: Allocator, R: ByteSource, S: ByteSink>(
    alloc: &A,
    source: &mut Source<R>,
    output: &mut S,
) -> Result<(), Refusal>
    requires source { IsOpen R.state source.old }
    requires output { (S.state output.old).stage ≡ Open }
    ensures { (input : spec.Input) × WasClaim R.state source.old source.new input
        × ((request : Request) → IsOutcome (Ok request) input (S.state output.old) (S.state output.new) result) }
{
    let text = text_of(alloc, source)?;
    let printed = flushed(write_whole(output, text.as_slice()), output);
    drop(text);
    printed?;
    Ok(())
}

/// Carries out a plan, or refuses a command line that has none.
fn answered<A: Allocator, R: ByteSource, S: ByteSink>(
    alloc: &A,
    plan: &Result<Plan<'_>, PlanFault>,
    source: &mut Source<R>,
    output: &mut S,
) -> Result<(), Refusal>
    requires source { IsOpen R.state source.old }
    requires output { (S.state output.old).stage ≡ Open }
    ensures { (input : spec.Input) × WasClaim R.state source.old source.new input
        × IsOutcome (requested plan.now) input (S.state output.old) (S.state output.new) result }
{
    match plan {
        Ok(_) => printed(alloc, source, output),
        Err(fault) => Err(Refusal::of_words(*fault)),
    }
}

/// Carries out a plan and returns the exit status. It writes the automaton of the claim that the source gives, and flushes the output; or it writes the message
/// of a refusal. Only a refusal because of a failed write leaves something in the output. A stream isn't used again after one of its calls has failed.
pub fn claim_over<A: Allocator, R: ByteSource, S: ByteSink, M: ByteSink>(
    alloc: &A,
    plan: &Result<Plan<'_>, PlanFault>,
    source: &mut Source<R>,
    output: &mut S,
    message: &mut M,
) -> u8
    requires source { IsOpen R.state source.old }
    requires output { (S.state output.old).stage ≡ Open }
    requires message { (M.state message.old).stage ≡ Open }
    ensures shown { (input : spec.Input) × WasClaim R.state source.old source.new input
        × Shows (MayClaim (requested plan.now) input) (S.state output.old) (S.state output.new) (M.state message.old) (M.state message.new) result }
    ensures same_output { StaysAt (S.state output.old) (S.state output.new) }
    ensures same_message { StaysAt (M.state message.old) (M.state message.new) }
{
    let outcome = answered(alloc, plan, source, output);
    finish(outcome, message)
}
