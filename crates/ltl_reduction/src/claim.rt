//! The never claim of an automaton that was read.

ghost use Rattle.std.specs.Prelude.{◌≡◌, length, Ok, true, IfOk};
ghost use Rattle.ltl_spec.specs.Checking.Bounds.{HasNamesBelow};
ghost use Rattle.ltl_spec.specs.Tools.Stage.{Open};
ghost use Rattle.ltl_spec.specs.Tools.Outcome as spec;
ghost use Rattle.ltl_cli.specs.Inputs.{IsOpen, WasAutomaton};
ghost use Rattle.ltl_reduction.specs.Plans.{Request};
ghost use Rattle.ltl_reduction.specs.Runs.{IsClaimMade, IsOutcome};

use ltl_cli::{Refusal, Source, flushed, read_automaton};
use ltl_hoa::Marked;
use ltl_models::Ba;
use ltl_reduce::reduce_to_buchi;
use ltl_streams::{ByteSink, ByteSource};
use ltl_text::laws::named_claim_is_read_back;
use ltl_text::put_named_claim;
use std::alloc::Allocator;

/// An automaton that was read, and a Büchi automaton with its words. The propositions of both have the names of the first.
#[derive(Drop)]
struct Claim<'a, A: Allocator> {
    given: Marked<'a, A>,
    made: Ba<'a, A>,
}

/// Reads an automaton from the source, and makes the Büchi automaton of its claim.
fn claim_from<'a, A: Allocator, R: ByteSource>(
    alloc: &'a A,
    source: &mut Source<R>,
) -> Result<Claim<'a, A>, Refusal>
    requires { IsOpen R.state source.old }
    ensures made { (input : spec.Input) × WasAutomaton R.state source.old source.new input × IsClaimMade input (λ t. t.given) (λ t. t.made) result }
    ensures named { IfOk result (λ t. HasNamesBelow (length t.given.names) t.made) }
{
    let given = read_automaton(alloc, source)?;
    given.invariant();
    let made = reduce_to_buchi(alloc, &given)?;
    made.invariant();
    named_claim_is_read_back(&made, given.names());
    Ok(Claim { given, made })
}

/// Reads an automaton from the source, and writes a claim that accepts its words.
pub(crate) fn claimed<A: Allocator, R: ByteSource, S: ByteSink>(
    alloc: &A,
    source: &mut Source<R>,
    output: &mut S,
) -> Result<(), Refusal>
    requires source { IsOpen R.state source.old }
    requires output { (S.state output.old).stage ≡ Open }
    ensures { (input : spec.Input) × WasAutomaton R.state source.old source.new input
        × ((request : Request) → request.claim ≡ true → IsOutcome (Ok request) input (S.state output.old) (S.state output.new) result) }
{
    let claim = claim_from(alloc, source)?;
    let names = claim.given.names();
    let printed = flushed(put_named_claim(&claim.made, names, output), output);
    drop(claim);
    printed?;
    Ok(())
}
