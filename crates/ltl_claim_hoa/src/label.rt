//! Labels of guards.

ghost use Rattle.std.specs.Prelude.{◌≡◌, ◌++◌, IfOk, OnOk, reverse, List};
ghost use Rattle.ltl_spec.specs.Semantics.Word.{Name};
ghost use Rattle.ltl_spec.specs.Claims.ClaimProgram.{Guard};
ghost use Rattle.ltl_claim.specs.ClaimView.{steps_of};
ghost use Rattle.ltl_claim_hoa.specs.ClaimHoa.{guard_text};
ghost use Rattle.ltl_claim_hoa.specs.LabelSigns.{between, expansion, signs_of};

use crate::sign::{Sign, put_back};
use ltl_claim::GuardStep;
use std::alloc::{AllocError, Allocator};

/// A part of a label that is still to be written.
#[derive(Clone, Copy, Debug, PartialEq, Eq)]
enum Task {
    Sign(Sign),
    /// An operand, in brackets if its operator binds less tightly than this: 0 is for `!`, 1 for `&` and 2 for `|`.
    Operand(usize),
}

/// Pushes an operator with its operands, in brackets or not.
fn push_binary<A: Allocator>(
    bracketed: bool,
    left: usize,
    sign: Sign,
    right: usize,
    tasks: &mut Vec<Task, &A>,
) -> Result<(), AllocError>
    ensures { OnOk result (tasks.new.items ≡ tasks.old.items ++ between bracketed left sign right) }
{
    if bracketed {
        return tasks.extend_from_slice(&[
            Task::Sign(Sign::Open),
            Task::Operand(left),
            Task::Sign(sign),
            Task::Operand(right),
            Task::Sign(Sign::Close),
        ]);
    }
    tasks.extend_from_slice(&[Task::Operand(left), Task::Sign(sign), Task::Operand(right)])
}

/// Pushes the parts of the operand that ends with this step.
fn expand<A: Allocator>(
    step: GuardStep,
    most: usize,
    tasks: &mut Vec<Task, &A>,
) -> Result<(), AllocError>
    ensures { OnOk result (tasks.new.items ≡ tasks.old.items ++ expansion step most) }
{
    match step {
        GuardStep::Constant(value) => Ok(tasks.push(Task::Sign(Sign::Constant(value)))?),
        GuardStep::Name(number) => Ok(tasks.push(Task::Sign(Sign::Number(number)))?),
        GuardStep::Not => tasks.extend_from_slice(&[Task::Sign(Sign::Not), Task::Operand(0)]),
        GuardStep::And => push_binary(most < 1, 1, Sign::And, 0, tasks),
        GuardStep::Or => push_binary(most < 2, 2, Sign::Or, 1, tasks),
    }
}

/// The signs of a guard's label, the last sign first. The guard is walked from its end, by an explicit stack.
fn signs_back<'a, A: Allocator>(
    alloc: &'a A,
    steps: &[GuardStep],
) -> Result<Vec<Sign, &'a A>, AllocError>
    ensures { IfOk result (λ signs. (names : List Name) (g : Guard) → steps.now ≡ steps_of names g → reverse signs.items ≡ signs_of names 2 g) }
{
    let mut tasks = Vec::new(alloc);
    let mut signs = Vec::new(alloc);
    let mut at = steps.len();
    tasks.push(Task::Operand(2))?;
    'tasks: while let Some(task) = tasks.pop() {
        match task {
            Task::Sign(sign) => signs.push(sign)?,
            Task::Operand(most) => {
                if at == 0 {
                    return Ok(signs);
                }
                at -= 1;
                expand(steps[at], most, &mut tasks)?;
            }
        }
    }
    Ok(signs)
}

/// Appends the label of a guard.
pub(crate) fn put_label<A: Allocator>(
    alloc: &A,
    steps: &[GuardStep],
    text: &mut Vec<u8, &A>,
) -> Result<(), AllocError>
    ensures { OnOk result ((names : List Name) (g : Guard) → steps.now ≡ steps_of names g → text.new.items ≡ text.old.items ++ guard_text names g) }
{
    let signs = signs_back(alloc, steps)?;
    put_back(signs.as_slice(), text)?;
    Ok(())
}
