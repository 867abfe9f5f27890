//! The program over byte streams: from the text of an automaton to that of a reduced one, or to a claim.

ghost use Rattle.std.specs.Prelude.{◌≡◌, Ok, false};
ghost use Rattle.ltl_spec.specs.Tools.Stage.{Open};
ghost use Rattle.ltl_spec.specs.Tools.Outcome as spec;
ghost use Rattle.ltl_cli.specs.Inputs.{IsOpen, WasAutomaton};
ghost use Rattle.ltl_cli.specs.Runs.{Shows, StaysAt};
ghost use Rattle.ltl_reduction.specs.Plans.{Request, requested};
ghost use Rattle.ltl_reduction.specs.Runs.{IsMade, IsOutcome, MayReduce};

use crate::claim::claimed;
use crate::finish::finish;
use crate::request::Plan;
use ltl_cli::{Refusal, Source, flushed, read_automaton};
use ltl_hoa::Marked;
use ltl_models::Gen;
use ltl_reduce::reduce_marked;
use ltl_streams::{ByteSink, ByteSource};
use ltl_text::laws::named_text_is_read_back;
use ltl_text::put_named;
use ltl_words::PlanFault;
use std::alloc::Allocator;

/// An automaton that was read, and a reduced one with its words. The propositions of both have the names of the first.
#[derive(Drop)]
struct Reduction<'a, A: Allocator> {
    given: Marked<'a, A>,
    made: Gen<'a, A>,
}

/// Reads an automaton from the source, and reduces it.
fn reduced_from<'a, A: Allocator, R: ByteSource>(
    alloc: &'a A,
    source: &mut Source<R>,
) -> Result<Reduction<'a, A>, Refusal>
    requires { IsOpen R.state source.old }
    ensures { (input : spec.Input) × WasAutomaton R.state source.old source.new input × IsMade input (λ t. t.given) (λ t. t.made) result }
{
    let given = read_automaton(alloc, source)?;
    given.invariant();
    let made = reduce_marked(alloc, &given)?;
    named_text_is_read_back(&made, given.names());
    Ok(Reduction { given, made })
}

/// Reads an automaton from the source, and writes the text of a reduced one.
fn printed<A: Allocator, R: ByteSource, S: ByteSink>(
    alloc: &A,
    source: &mut Source<R>,
    output: &mut S,
) -> Result<(), Refusal>
    requires source { IsOpen R.state source.old }
    requires output { (S.state output.old).stage ≡ Open }
    ensures { (input : spec.Input) × WasAutomaton R.state source.old source.new input
        × ((request : Request) → request.claim ≡ false → IsOutcome (Ok request) input (S.state output.old) (S.state output.new) result) }
{
    let reduction = reduced_from(alloc, source)?;
    let names = reduction.given.names();
    let printed = flushed(put_named(&reduction.made, names, output), output);
    drop(reduction);
    printed?;
    Ok(())
}

/// Carries out a plan, or refuses a command line that has none.
fn answered<A: Allocator, R: ByteSource, S: ByteSink>(
    alloc: &A,
    plan: &Result<Plan<'_>, PlanFault>,
    source: &mut Source<R>,
    output: &mut S,
) -> Result<(), Refusal>
    requires source { IsOpen R.state source.old }
    requires output { (S.state output.old).stage ≡ Open }
    ensures { (input : spec.Input) × WasAutomaton R.state source.old source.new input
        × IsOutcome (requested plan.now) input (S.state output.old) (S.state output.new) result }
{
    match plan {
        Ok(plan) => {
            if plan.claim() {
                claimed(alloc, source, output)
            } else {
                printed(alloc, source, output)
            }
        }
        Err(fault) => Err(Refusal::of_words(*fault)),
    }
}

/// Carries out a plan and returns the exit status. It writes an automaton that accepts the words of the one that the source gives, with no more states and edges,
/// or a claim with these words, and flushes the output; or it writes the message of a refusal. Only a refusal because of a failed write leaves something in the output. A stream isn't used
/// again after one of its calls has failed.
pub fn reduce_over<A: Allocator, R: ByteSource, S: ByteSink, M: ByteSink>(
    alloc: &A,
    plan: &Result<Plan<'_>, PlanFault>,
    source: &mut Source<R>,
    output: &mut S,
    message: &mut M,
) -> u8
    requires source { IsOpen R.state source.old }
    requires output { (S.state output.old).stage ≡ Open }
    requires message { (M.state message.old).stage ≡ Open }
    ensures shown { (input : spec.Input) × WasAutomaton R.state source.old source.new input
        × Shows (MayReduce (requested plan.now) input) (S.state output.old) (S.state output.new) (M.state message.old) (M.state message.new) result }
    ensures same_output { StaysAt (S.state output.old) (S.state output.new) }
    ensures same_message { StaysAt (M.state message.old) (M.state message.new) }
{
    let outcome = answered(alloc, plan, source, output);
    finish(outcome, message)
}
