//! A depth-first walk with an explicit stack, which lists the different subformulas of a node in postorder.

ghost use Rattle.std.specs.Prelude.{◌≡◌, ◌<◌, ◌≤◌, ℕ, [], ◌∷◌, ◌++◌, All, IfOk, IsErrOf, OnOk, length, map};
ghost use Rattle.ltl_spec.specs.NormalForms.NormalForm.{rows};
ghost use Rattle.ltl_spec.specs.NormalForms.SharedNodes.{IsShared, tree_at};
ghost use Rattle.ltl_spec.specs.NormalForms.RowsCollected.{IsTaskDone, AreFlags};
ghost use Rattle.ltl_formula.specs.WalkView.{AreInOrder, AreOnNodes, task_of};

use crate::build_fault::BuildFault;
use crate::limits::ROW_LIMIT;
use crate::row::Row;
use crate::shared_nodes::SharedNodes;
use smallvec::SmallVec;
use std::alloc::{AllocError, Allocator};

/// A task of the walk: `Enter` a node, which pushes its operands, or `Leave` it, which lists it.
#[derive(Clone, Copy)]
pub enum Task {
    Enter(usize),
    Leave(usize),
}

impl Default for Task {
    fn default() -> Task {
        Task::Enter(0)
    }
}

/// The stack of tasks. Up to 32 are stored without an allocation.
type Tasks<'a, A> = SmallVec<Task, 32, &'a A>;

/// Numbers of nodes. Up to 64 are stored without an allocation.
pub type Numbers<'a, A> = SmallVec<usize, 64, &'a A>;

/// For each node of the graph, whether it was listed. Up to 128 are stored without an allocation.
type Flags<'a, A> = SmallVec<bool, 128, &'a A>;

/// Lists a node, and marks it as listed.
fn list<A: Allocator>(
    k: usize,
    flags: &mut Flags<'_, A>,
    listed: &mut Numbers<'_, A>,
) -> Result<(), AllocError>
    requires inside { k < length flags.old.items }
    requires flags { AreFlags flags.old.items listed.old.items }
    ensures long { OnOk result (length flags.new.items ≡ length flags.old.items) }
    ensures flags { OnOk result (AreFlags flags.new.items listed.new.items) }
    ensures listed { OnOk result (listed.new.items ≡ listed.old.items ++ k ∷ []) }
{
    listed.push(k)?;
    flags[k] = true;
    Ok(())
}

/// Does one task. A node that is listed isn't entered again.
fn step<A: Allocator>(
    graph: &SharedNodes<'_, A>,
    task: Task,
    flags: &mut Flags<'_, A>,
    listed: &mut Numbers<'_, A>,
    stack: &mut Tasks<'_, A>,
) -> Result<(), AllocError>
    requires shared { IsShared graph.now.nodes }
    requires long { length flags.old.items ≡ length graph.now.nodes }
    requires flags { AreFlags flags.old.items listed.old.items }
    requires tasks { AreOnNodes (length graph.now.nodes) task stack.old.items }
    requires numbers { All (λ k. k < length graph.now.nodes) listed.old.items }
    ensures long { OnOk result (length flags.new.items ≡ length graph.now.nodes) }
    ensures flags { OnOk result (AreFlags flags.new.items listed.new.items) }
    ensures done { OnOk result (IsTaskDone (tree_at graph.now.nodes) (length graph.now.nodes) (map task_of stack.old.items) (task_of task) listed.old.items
        (map task_of stack.new.items) listed.new.items) }
{
    match task {
        Task::Leave(k) => list(k, flags, listed),
        Task::Enter(k) => {
            if flags[k] {
                return Ok(());
            }
            match graph.node(k) {
                Row::True | Row::False | Row::Literal(_) => list(k, flags, listed),
                Row::Next(i) => stack.extend_from_slice(&[Task::Leave(k), Task::Enter(i)]),
                Row::And(i, j) | Row::Or(i, j) | Row::Until(i, j) | Row::Release(i, j) => {
                    stack.extend_from_slice(&[Task::Leave(k), Task::Enter(j), Task::Enter(i)])
                }
            }
        }
    }
}

/// The numbers of the subformulas of node `root`, by first occurrence in postorder.
pub fn row_numbers<'a, A: Allocator>(
    alloc: &'a A,
    graph: &SharedNodes<'_, A>,
    root: usize,
) -> Result<Numbers<'a, A>, BuildFault>
    requires { root < length graph.now.nodes }
    ensures rows { IfOk result (λ v. map (tree_at graph.now.nodes) v.items ≡ rows (tree_at graph.now.nodes root)) }
    ensures order { IfOk result (λ v. AreInOrder graph.now.nodes v.items) }
    ensures few { IfOk result (λ v. length v.items ≤ ROW_LIMIT) }
    ensures too_many { IsErrOf result BuildFault.TooManyRows → ROW_LIMIT < length (rows (tree_at graph.now.nodes root)) }
    ensures other { ¬ (IsErrOf result BuildFault.TooManyElementaryRows) }
{
    let mut stack: Tasks<'a, A> = SmallVec::from_slice(alloc, &[Task::Enter(root)])?;
    let mut flags: Flags<'a, A> = SmallVec::from_elem(alloc, false, graph.len())?;
    let mut listed: Numbers<'a, A> = SmallVec::new(alloc);
    'work: while let Some(task) = stack.pop() {
        step(graph, task, &mut flags, &mut listed, &mut stack)?;
        if listed.len() > ROW_LIMIT {
            return Err(BuildFault::TooManyRows);
        }
    }
    Ok(listed)
}
