//! Plans of short lassos by a long one that is known: its cycle is entered soon, and left for a short way back.

ghost use Rattle.ltl_check.specs.Breadth.{IsPaid};

use crate::net::Numbered;
use crate::path::look_within;
use crate::path_search::{Ends, PathSearch};
use crate::place::holds_all;
use crate::walk::Taken;
use ltl_sets::RowSet;
use std::alloc::{AllocError, Allocator};

/// The number of edges of a cycle that are looked at for places where a shorter one may begin.
const SCANNED: usize = 65_536;

/// More than the number of edges at the end of a stem or of a cycle that a shorter one may keep.
const KEPT: u8 = 16;

/// The candidate edges along a stem and a cycle, in order.
#[derive(Drop)]
pub(crate) struct Plan<'a, A: Allocator> {
    pub(crate) stem: Vec<usize, &'a A>,
    pub(crate) cycle: Vec<usize, &'a A>,
}

/// The candidate edges of a stem, and the place of the cycle to which they lead.
#[derive(Drop)]
pub(crate) struct Entry<'a, A: Allocator> {
    picks: Vec<usize, &'a A>,
    at: usize,
}

/// A lasso that was found, and the number of sets.
#[derive(Clone, Copy)]
pub(crate) struct Known<'w> {
    pub(crate) stem: &'w [Taken],
    pub(crate) cycle: &'w [Taken],
    pub(crate) sets: usize,
}

/// Appends the numbers below `count`.
fn push_numbers<A: Allocator>(
    numbers: &mut Vec<usize, &A>,
    count: usize,
) -> Result<(), AllocError> {
    for i in 0..count {
        numbers.push(i)?;
    }
    Ok(())
}

/// The first of some places, or 0.
fn first_of(entries: &[usize]) -> usize {
    if entries.len() == 0 { 0 } else { entries[0] }
}

impl<'w> Known<'w> {
    /// The places of the cycle behind two edges that have every set between them, or all places if there are none.
    #[tactic(auto, using(crate::proofs::ShortestLaws::paid_then, crate::proofs::PathLaws::paid_none))]
    fn entries<'a, N: Numbered, A: Allocator>(
        &self,
        alloc: &'a A,
        net: &N,
        left: &mut usize,
        looks: &mut N::Looks,
    ) -> Result<Vec<usize, &'a A>, AllocError>
        ensures { IsPaid (N.looked_of looks.old) (N.looked_of looks.new) left.old left.new }
    {
        let mut entries = Vec::new(alloc);
        let mut before = RowSet::empty();
        let count = self.cycle.len().min(SCANNED);
        for i in 0..count {
            let taken = self.cycle[i];
            let Some(step) = look_within(net, taken.state, taken.pick, left, looks) else {
                break;
            };
            if holds_all(&before.union(&step.marks), self.sets) {
                let next = if i + 1 == self.cycle.len() { 0 } else { i + 1 };
                entries.push(next)?;
            }
            before = step.marks;
        }
        if entries.len() == 0 {
            push_numbers(&mut entries, count)?;
        }
        Ok(entries)
    }

    /// The step of the lasso that is `rest` edges before the place `at` of the cycle, on the cycle's first round or on the stem.
    fn on_way(&self, at: usize, rest: usize) -> Option<Taken> {
        if rest <= at {
            return self.cycle.get(at - rest).copied();
        }
        let more = rest - at;
        if more > self.stem.len() {
            return None;
        }
        self.stem.get(self.stem.len() - more).copied()
    }

    /// The step of the cycle that is `rest` edges before its place `at`.
    fn on_round(&self, at: usize, rest: usize) -> Option<Taken> {
        let len = self.cycle.len();
        if rest > len || at >= len {
            return None;
        }
        self.cycle.get((at + (len - rest)) % len).copied()
    }

    /// The ends of a search for a path to one of these places of the cycle. It may end as the lasso does before the first of them.
    fn entry_ends<'a, A: Allocator>(
        &self,
        alloc: &'a A,
        count: usize,
        entries: &[usize],
    ) -> Result<Ends<'a, A>, AllocError> {
        let mut ends = Ends::new(alloc, count, 0)?;
        for i in 0..entries.len() {
            if let Some(taken) = self.on_round(entries[i], 0) {
                ends.add(taken.state, 0);
            }
        }
        ends.tails.push(RowSet::empty())?;
        for rest in 1..KEPT {
            if let Some(taken) = self.on_way(first_of(entries), rest as usize) {
                ends.add(taken.state, rest);
            }
            ends.tails.push(RowSet::empty())?;
        }
        Ok(ends)
    }

    /// The ends of a search for a way back to the place `at` of the cycle. It may end as the cycle does before that place.
    #[tactic(auto, using(crate::proofs::ShortestLaws::paid_then, crate::proofs::PathLaws::paid_none))]
    fn return_ends<'a, N: Numbered, A: Allocator>(
        &self,
        alloc: &'a A,
        net: &N,
        at: usize,
        left: &mut usize,
        looks: &mut N::Looks,
    ) -> Result<Ends<'a, A>, AllocError>
        ensures { IsPaid (N.looked_of looks.old) (N.looked_of looks.new) left.old left.new }
    {
        let mut ends = Ends::new(alloc, net.count(), self.sets)?;
        let mut marks = RowSet::empty();
        ends.tails.push(marks)?;
        if let Some(taken) = self.on_round(at, 0) {
            ends.add(taken.state, 0);
        }
        for rest in 1..KEPT {
            let Some(taken) = self.on_round(at, rest as usize) else {
                break;
            };
            let Some(step) = look_within(net, taken.state, taken.pick, left, looks) else {
                break;
            };
            marks = marks.union(&step.marks);
            ends.tails.push(marks)?;
            ends.add(taken.state, rest);
        }
        Ok(ends)
    }

    /// The first of these places of the cycle in which the lasso is in this state, or `other`.
    fn place_of(&self, entries: &[usize], state: usize, other: usize) -> usize {
        for i in 0..entries.len() {
            let at = entries[i];
            if at < self.cycle.len() && self.cycle[at].state == state {
                return at;
            }
        }
        other
    }

    /// A stem to one of these places of the cycle, if one is found.
    #[tactic(auto, using(crate::proofs::ShortestLaws::paid_then, crate::proofs::PathLaws::paid_none))]
    fn enter<'a, N: Numbered, A: Allocator>(
        &self,
        alloc: &'a A,
        net: &N,
        entries: &[usize],
        left: &mut usize,
        looks: &mut N::Looks,
    ) -> Result<Option<Entry<'a, A>>, AllocError>
        ensures { IsPaid (N.looked_of looks.old) (N.looked_of looks.new) left.old left.new }
    {
        let ends = self.entry_ends(alloc, net.count(), entries)?;
        let mut search = PathSearch::new(alloc, net.start(), usize::MAX)?;
        let Some(place) = search.enter(net, &ends, left, looks)? else {
            return Ok(None);
        };
        let mut picks = search.picks(alloc)?;
        let rest = ends.rest_of(&place).unwrap_or(0);
        let mut at = first_of(entries);
        if rest == 0 {
            at = self.place_of(entries, place.state, at);
        }
        for j in 0..rest {
            if let Some(taken) = self.on_way(at, rest - j) {
                picks.push(taken.pick)?;
            }
        }
        Ok(Some(Entry { picks, at }))
    }

    /// The candidate edges of a cycle from the place `at` of the cycle: the way back that is found, or the whole cycle.
    #[tactic(auto, using(crate::proofs::ShortestLaws::paid_then, crate::proofs::PathLaws::paid_none))]
    fn go_round<'a, N: Numbered, A: Allocator>(
        &self,
        alloc: &'a A,
        net: &N,
        at: usize,
        left: &mut usize,
        looks: &mut N::Looks,
    ) -> Result<Vec<usize, &'a A>, AllocError>
        ensures { IsPaid (N.looked_of looks.old) (N.looked_of looks.new) left.old left.new }
    {
        let Some(begin) = self.on_round(at, 0) else {
            return Ok(Vec::new(alloc));
        };
        let ends = self.return_ends(alloc, net, at, left, looks)?;
        let mut search = PathSearch::new(alloc, begin.state, self.cycle.len())?;
        let found = search.search(net, &ends, left, looks)?;
        let mut picks = search.picks(alloc)?;
        let mut rest = self.cycle.len();
        if let Some(place) = found {
            rest = ends.rest_of(&place).unwrap_or(0);
        }
        for j in 0..rest {
            if let Some(taken) = self.on_round(at, rest - j) {
                picks.push(taken.pick)?;
            }
        }
        Ok(picks)
    }

    /// A plan of a lasso that is probably shorter. Its cycle is empty if none is found before no look is left.
    #[tactic(auto, using(crate::proofs::ShortestLaws::paid_then, crate::proofs::PathLaws::paid_none))]
    pub(crate) fn plan<'a, N: Numbered, A: Allocator>(
        &self,
        alloc: &'a A,
        net: &N,
        left: &mut usize,
        looks: &mut N::Looks,
    ) -> Result<Plan<'a, A>, AllocError>
        ensures { IsPaid (N.looked_of looks.old) (N.looked_of looks.new) left.old left.new }
    {
        let entries = self.entries(alloc, net, left, looks)?;
        let Some(entry) = self.enter(alloc, net, entries.as_slice(), left, looks)? else {
            return Ok(Plan {
                stem: Vec::new(alloc),
                cycle: Vec::new(alloc),
            });
        };
        let cycle = self.go_round(alloc, net, entry.at, left, looks)?;
        Ok(Plan {
            stem: entry.picks,
            cycle,
        })
    }
}
