//! Paths that are followed edge by edge, with a limit on the looks.

ghost use Rattle.std.specs.Prelude.{◌≡◌, IfSome, IfOk};
ghost use Rattle.ltl_check.specs.Nets.{IsSuccessor};
ghost use Rattle.ltl_check.specs.Breadth.{IsPaid};
ghost use Rattle.ltl_check.specs.Paths.{IsPathWith};

use crate::graph::Step;
use crate::net::Numbered;
use crate::walk::Taken;
use ltl_sets::RowSet;
use std::alloc::{AllocError, Allocator};

/// A path: its steps, the state in which it ends, and the sets of its edges.
#[derive(Drop)]
pub(crate) struct Path<'a, A: Allocator> {
    pub(crate) steps: Vec<Taken, &'a A>,
    pub(crate) end: usize,
    pub(crate) marks: RowSet,
}

/// One look, if there is this state and this candidate edge, and a look is left.
#[tactic(auto, using(crate::proofs::ShortestLaws::paid_then, crate::proofs::PathLaws::paid_none))]
pub(crate) fn look_within<N: Numbered>(
    net: &N,
    n: usize,
    k: usize,
    left: &mut usize,
    looks: &mut N::Looks,
) -> Option<Step<usize>>
    ensures found { IfSome result (λ a. IsSuccessor (N.net net.now) n k a) }
    ensures paid { IsPaid (N.looked_of looks.old) (N.looked_of looks.new) left.old left.new }
{
    if *left == 0 || n >= net.count() || k >= net.pairs_at(n) {
        return None;
    }
    *left -= 1;
    net.look(n, k, looks)
}

/// The path along these candidate edges, if each of them is found before no look is left.
#[tactic(auto, using(crate::proofs::ShortestLaws::paid_then, crate::proofs::PathLaws::paid_none))]
pub(crate) fn follow<'a, N: Numbered, A: Allocator>(
    alloc: &'a A,
    net: &N,
    from: usize,
    picks: &[usize],
    left: &mut usize,
    looks: &mut N::Looks,
) -> Result<Option<Path<'a, A>>, AllocError>
    ensures path { IfOk result (λ r. IfSome r (λ p. IsPathWith (N.net net.now) from p.steps.items p.end p.marks)) }
    ensures paid { IsPaid (N.looked_of looks.old) (N.looked_of looks.new) left.old left.new }
{
    let mut steps = Vec::new(alloc);
    let mut end = from;
    let mut marks = RowSet::empty();
    for i in 0..picks.len() {
        let pick = picks[i];
        let Some(step) = look_within(net, end, pick, left, looks) else {
            return Ok(None);
        };
        let taken = Taken {
            state: end,
            pick,
            letter: step.letter,
        };
        steps.push(taken)?;
        end = step.target;
        marks = marks.union(&step.marks);
    }
    Ok(Some(Path { steps, end, marks }))
}
