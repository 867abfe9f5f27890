//! Breadth-first search for a short path to a goal, whose last edges may be known ones.

ghost use Rattle.std.specs.Prelude.{◌≡◌};
ghost use Rattle.ltl_check.specs.Breadth.{IsPaid};

use crate::net::Numbered;
use crate::path::look_within;
use crate::place::{Place, holds_all};
use ltl_automaton::Interner;
use ltl_sets::RowSet;
use std::alloc::{AllocError, Allocator};

/// What a search looks for. From a state whose number in `rests` is `r + 1`, `r` known edges lead to the goal; the sets of these edges are number `r` of
/// `tails`. 0 stands for any other state. A path has to meet every set.
#[derive(Drop)]
pub(crate) struct Ends<'a, A: Allocator> {
    pub(crate) rests: Vec<u8, &'a A>,
    pub(crate) tails: Vec<RowSet, &'a A>,
    pub(crate) sets: usize,
}

impl<'a, A: Allocator> Ends<'a, A> {
    /// No ends, for a graph with `count` states.
    pub(crate) fn new(alloc: &'a A, count: usize, sets: usize) -> Result<Self, AllocError> {
        let rests = vec![in alloc; 0u8; count]?;
        Ok(Ends {
            rests,
            tails: Vec::new(alloc),
            sets,
        })
    }

    /// From this state `rest` known edges lead to the goal, unless it is an end already.
    pub(crate) fn add(&mut self, state: usize, rest: u8) {
        if state < self.rests.len() && self.rests[state] == 0 {
            self.rests[state] = rest.saturating_add(1);
        }
    }

    /// The number of known edges that lead from this place to the goal, if there are any and every set is met.
    pub(crate) fn rest_of(&self, place: &Place) -> Option<usize> {
        if place.state >= self.rests.len() || self.rests[place.state] == 0 {
            return None;
        }
        let rest = self.rests[place.state] as usize - 1;
        if rest < self.tails.len() && holds_all(&place.marks.union(&self.tails[rest]), self.sets) {
            return Some(rest);
        }
        None
    }
}

/// How a place was met: from the place with the number `from`, by the candidate edge `pick`, `depth` edges after the first place.
#[derive(Clone, Copy)]
struct Source {
    from: usize,
    pick: usize,
    depth: usize,
}

/// A path to the goal: the number of the place from which known edges lead on, and the number of all of the path's edges.
#[derive(Clone, Copy)]
struct Closest {
    number: usize,
    length: usize,
}

/// The places that were met and how, and the shortest path that was found.
#[derive(Drop)]
pub(crate) struct PathSearch<'a, A: Allocator> {
    places: Interner<'a, Place, A>,
    sources: Vec<Source, &'a A>,
    closest: Closest,
}

impl<'a, A: Allocator> PathSearch<'a, A> {
    /// A search for a path from this state with fewer than `length` edges, before its first look.
    pub(crate) fn new(alloc: &'a A, state: usize, length: usize) -> Result<Self, AllocError> {
        let mut places = Interner::new(alloc);
        let place = Place {
            base: 0,
            state,
            marks: RowSet::empty(),
        };
        places.number(place)?;
        let mut sources = Vec::new(alloc);
        sources.push(Source {
            from: 0,
            pick: 0,
            depth: 0,
        })?;
        Ok(PathSearch {
            places,
            sources,
            closest: Closest { number: 0, length },
        })
    }

    /// Adds a place, unless it is there. The path through it becomes the closest one if it is the shortest.
    fn meet(
        &mut self,
        place: &Place,
        source: &Source,
        ends: &Ends<'_, A>,
    ) -> Result<(), AllocError> {
        let number = self.places.len();
        self.places.number(*place)?;
        if self.places.len() == number {
            return Ok(());
        }
        self.sources.push(*source)?;
        if let Some(rest) = ends.rest_of(place) {
            let length = source.depth.saturating_add(rest);
            if length < self.closest.length {
                self.closest = Closest { number, length };
            }
        }
        Ok(())
    }

    /// All looks from the place with this number.
    #[tactic(auto, using(crate::proofs::ShortestLaws::paid_then, crate::proofs::PathLaws::paid_none))]
    fn expand<N: Numbered>(
        &mut self,
        net: &N,
        at: usize,
        ends: &Ends<'_, A>,
        left: &mut usize,
        looks: &mut N::Looks,
    ) -> Result<(), AllocError>
        ensures { IsPaid (N.looked_of looks.old) (N.looked_of looks.new) left.old left.new }
    {
        if at >= self.places.len() || at >= self.sources.len() {
            return Ok(());
        }
        let here = *self.places.get(at);
        let depth = self.sources[at].depth.saturating_add(1);
        if here.state >= net.count() {
            return Ok(());
        }
        for k in 0..net.pairs_at(here.state) {
            let Some(step) = look_within(net, here.state, k, left, looks) else {
                continue;
            };
            let place = Place {
                base: 0,
                state: step.target,
                marks: here.marks.union(&step.marks),
            };
            let source = Source {
                from: at,
                pick: k,
                depth,
            };
            self.meet(&place, &source, ends)?;
        }
        Ok(())
    }

    /// Searches until no look is left or no shorter path can be found. The result is the place from which known edges lead to the goal.
    #[tactic(auto, using(crate::proofs::ShortestLaws::paid_then, crate::proofs::PathLaws::paid_none))]
    pub(crate) fn search<N: Numbered>(
        &mut self,
        net: &N,
        ends: &Ends<'_, A>,
        left: &mut usize,
        looks: &mut N::Looks,
    ) -> Result<Option<Place>, AllocError>
        ensures { IsPaid (N.looked_of looks.old) (N.looked_of looks.new) left.old left.new }
    {
        for at in 0..*left {
            if at >= self.sources.len() || *left == 0 {
                break;
            }
            if self.sources[at].depth.saturating_add(1) >= self.closest.length {
                break;
            }
            self.expand(net, at, ends, left, looks)?;
        }
        if self.closest.number == 0 || self.closest.number >= self.places.len() {
            return Ok(None);
        }
        Ok(Some(*self.places.get(self.closest.number)))
    }

    /// The first place, if known edges lead from there to the goal, or else what `search` returns.
    #[tactic(auto, using(crate::proofs::ShortestLaws::paid_then, crate::proofs::PathLaws::paid_none))]
    pub(crate) fn enter<N: Numbered>(
        &mut self,
        net: &N,
        ends: &Ends<'_, A>,
        left: &mut usize,
        looks: &mut N::Looks,
    ) -> Result<Option<Place>, AllocError>
        ensures { IsPaid (N.looked_of looks.old) (N.looked_of looks.new) left.old left.new }
    {
        if self.places.len() > 0 {
            let start = *self.places.get(0);
            if ends.rest_of(&start).is_some() {
                return Ok(Some(start));
            }
        }
        self.search(net, ends, left, looks)
    }

    /// The candidate edges of the shortest path that was found, up to the known edges.
    pub(crate) fn picks(&self, alloc: &'a A) -> Result<Vec<usize, &'a A>, AllocError> {
        let mut picks = Vec::new(alloc);
        let mut at = self.closest.number;
        'back: while at > 0 && at < self.sources.len() {
            let source = self.sources[at];
            picks.push(source.pick)?;
            at = source.from.min(at - 1);
        }
        picks.reverse();
        Ok(picks)
    }
}
