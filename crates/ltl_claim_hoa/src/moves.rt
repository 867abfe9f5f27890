//! Moves and states in a text.

ghost use Rattle.std.specs.Prelude.{◌≡◌, ◌<◌, ◌++◌, ℕ, List, Option, Some, flat_map, length, nat_eq, slice_index_or, OnOk, false, []};
ghost use Rattle.std.specs.List.{list_any};
ghost use Rattle.ltl_spec.specs.Semantics.Word.{Name};
ghost use Rattle.ltl_spec.specs.Claims.ClaimProgram.{Guard, Program};
ghost use Rattle.ltl_claim.specs.ClaimView.{AreMoves, IsClaim, IsMove};
ghost use Rattle.ltl_claim_hoa.specs.ClaimHoa.{MoveList, move_line, state_line, statement_lines};

use crate::digits::put_number;
use crate::label::put_label;
use ltl_claim::{Claim, ClaimMove};
use std::alloc::{AllocError, Allocator};

/// Appends the line of a move.
fn put_move<A: Allocator, B: Allocator>(
    alloc: &A,
    claim_move: &ClaimMove<'_, B>,
    text: &mut Vec<u8, &A>,
) -> Result<(), AllocError>
    ensures { OnOk result ((names : List Name) (m : Guard × ℕ) → IsMove names claim_move.now m → text.new.items ≡ text.old.items ++ move_line names m) }
{
    text.push(b'[')?;
    put_label(alloc, claim_move.guard(), text)?;
    text.extend_from_slice(b"] ")?;
    put_number(claim_move.target(), text)?;
    text.push(b'\n')?;
    Ok(())
}

/// Appends the lines of moves.
fn put_moves<A: Allocator, B: Allocator>(
    alloc: &A,
    moves: &[ClaimMove<'_, B>],
    text: &mut Vec<u8, &A>,
) -> Result<(), AllocError>
    ensures { OnOk result ((names : List Name) (ms : MoveList) → AreMoves names moves.now ms → text.new.items ≡ text.old.items ++ flat_map (move_line names) ms) }
{
    'moves: for i in 0..moves.len() {
        put_move(alloc, &moves[i], text)?;
    }
    Ok(())
}

/// Appends the line with which a state begins.
pub(crate) fn put_state<A: Allocator>(
    number: usize,
    accepting: bool,
    text: &mut Vec<u8, &A>,
) -> Result<(), AllocError>
    ensures { OnOk result (text.new.items ≡ text.old.items ++ state_line number accepting) }
{
    text.extend_from_slice(b"State: ")?;
    put_number(number, text)?;
    text.extend_from_slice(if accepting { b" {0}\n" } else { b"\n" })
}

/// Appends the lines of a statement. `i` is its number.
pub(crate) fn put_statement<A: Allocator, B: Allocator>(
    alloc: &A,
    claim: &Claim<'_, B>,
    i: usize,
    text: &mut Vec<u8, &A>,
) -> Result<(), AllocError>
    requires { i < length claim.now.states }
    ensures { OnOk result ((P : Program) → IsClaim P claim.now → text.new.items ≡ text.old.items ++ statement_lines P i) }
{
    put_state(i, claim.accepting(i), text)?;
    put_moves(alloc, claim.moves(i), text)?;
    Ok(())
}

/// Whether one of the moves leads to this state.
pub(crate) fn lead_to<A: Allocator>(moves: &[ClaimMove<'_, A>], target: usize) -> bool
    ensures { (names : List Name) (ms : MoveList) → AreMoves names moves.now ms → result ≡ list_any (λ m. nat_eq m.1 target) ms }
{
    'moves: for i in 0..moves.len() {
        if moves[i].target() == target {
            return true;
        }
    }
    false
}
