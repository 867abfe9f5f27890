//! Nested depth-first search for a lasso whose cycle passes an accepting state.

ghost use Rattle.std.specs.Prelude.{◌≡◌, ◌+◌, ◌<◌, ◌≤◌, ◌++◌, ◌∷◌, ◌*◌, [], length, List, OnOk, IfOk, take, drop, slice_index_or, true, false, IfSome, None, Ok};
ghost use Rattle.ltl_check.specs.declared.walk.Taken.{Taken};
ghost use Rattle.ltl_check.specs.Nets.{Net, IsFound};
ghost use Rattle.ltl_check.specs.Looks.{LooksAtMost, LooksAtReached};
ghost use Rattle.ltl_check.specs.Explored.{OneOf, IsPopped, HasRooms, HasMore, IsDone, StandsAt, IsSearching, IsLookOn, IsProbing, IsProbeOn, HasMet, HasProbed, HasLeft, HasPaid, counted, looks_left, sum_below, rest_of, spent};

use crate::graph::Step;
use crate::net::Numbered;
use crate::walk::{Taken, Walk};
use std::alloc::{AllocError, Allocator};

/// What the searches know of a state: it is new, on the stack of the first search, left by it, or left and visited by the second one too.
#[derive(Clone, Copy)]
pub enum Colour {
    New,
    Open,
    Left,
    Probed,
}

/// The path of a depth-first search: the steps from its start, the current state, and the number of the candidate edge that comes next.
#[derive(Drop)]
pub struct DfsPath<'a, A: Allocator> {
    pub stem: Vec<Taken, &'a A>,
    pub here: usize,
    pub next: usize,
}

impl<'a, A: Allocator> DfsPath<'a, A> {
    /// Goes back by one step. The answer is `false` if the path is empty.
    fn step_back(&mut self) -> bool
        requires { HasRooms self.old }
        ensures back { result ≡ true → IsPopped self.old self.new }
        ensures stays { result ≡ false → self.old.stem.items ≡ [] }
    {
        match self.stem.pop() {
            Some(t) => {
                self.here = t.state;
                self.next = t.pick + 1;
                true
            }
            None => false,
        }
    }
}

/// What closes a cycle: a step of the second search to a state on the stack of the first one, and the position of that state on the stack.
#[derive(Clone, Copy)]
pub struct Met {
    pub taken: Taken,
    pub place: usize,
}

/// The first position where the path leaves this state, or the length of the path.
fn place_of(stem: &[Taken], n: usize) -> usize
    ensures within { result ≤ length stem.now }
    ensures there { result < length stem.now → (t : Taken) × (slice_index_or stem.now result t ≡ t) × (t.state ≡ n) }
    ensures absent { result ≡ length stem.now → OneOf (λ t. t.state ≡ n) stem.now → ⊥ }
{
    let mut i = 0usize;
    'places: while i < stem.len() {
        if stem[i].state == n {
            return i;
        }
        i += 1;
    }
    i
}

/// One look of the second search. It returns a step to a state on the stack of the first search, if it meets one.
fn second_look<'a, N: Numbered, A: Allocator>(
    net: &N,
    first: &DfsPath<'a, A>,
    colours: &mut Vec<Colour, &'a A>,
    path: &mut DfsPath<'a, A>,
    looks: &mut N::Looks,
) -> Result<Option<Met>, AllocError>
    requires probing { IsProbing (N.net net.now) colours.old.items first.now path.old }
    requires more { HasMore (N.net net.now) path.old }
    ensures marks { result ≡ Ok None → IsProbeOn (N.net net.now) first.now colours.old.items path.old colours.new.items path.new }
    ensures met { IfOk result (λ r. IfSome r (HasMet (N.net net.now) first.now path.new)) }
    ensures looked { N.looked_of looks.new ≡ counted (N.looked_of looks.old) 1 }
{
    match net.look(path.here, path.next, looks) {
        Some(step) => {
            let taken = Taken {
                state: path.here,
                pick: path.next,
                letter: step.letter,
            };
            match colours[step.target] {
                Colour::Open => {
                    let place = place_of(&first.stem, step.target);
                    Ok(Some(Met { taken, place }))
                }
                Colour::Left => {
                    path.stem.push(taken)?;
                    colours[step.target] = Colour::Probed;
                    path.here = step.target;
                    path.next = 0;
                    Ok(None)
                }
                Colour::New | Colour::Probed => {
                    path.next += 1;
                    Ok(None)
                }
            }
        }
        None => {
            path.next += 1;
            Ok(None)
        }
    }
}

/// The stem and the cycle that the second search has closed: the cycle follows the first search's stack from the state that was met, and then the
/// second search's path.
fn close<'a, A: Allocator>(
    alloc: &'a A,
    first: &DfsPath<'a, A>,
    path: &DfsPath<'a, A>,
    met: Met,
) -> Result<Walk<'a, A>, AllocError>
    requires { met.place ≤ length first.now.stem.items }
    ensures stem { IfOk result (λ w. w.stem.items ≡ take met.place first.now.stem.items) }
    ensures cycle { IfOk result (λ w. w.cycle.items ≡ drop met.place first.now.stem.items ++ (path.now.stem.items ++ met.taken ∷ [])) }
{
    let mut stem = Vec::new(alloc);
    let mut cycle = Vec::new(alloc);
    stem.extend_from_slice(&first.stem[..met.place])?;
    cycle.extend_from_slice(&first.stem[met.place..])?;
    cycle.extend_from_slice(&path.stem)?;
    cycle.push(met.taken)?;
    Ok(Walk { stem, cycle })
}

/// The second search, from a state that the first search is about to leave. It ends at any state on the stack of the first search.
fn inner_search<'a, N: Numbered, A: Allocator>(
    alloc: &'a A,
    net: &N,
    first: &DfsPath<'a, A>,
    colours: &mut Vec<Colour, &'a A>,
    looks: &mut N::Looks,
) -> Result<Option<Walk<'a, A>>, AllocError>
    requires stands { StandsAt (N.net net.now) colours.old.items first.now }
    requires done { IsDone (N.net net.now) first.now }
    ensures probed { result ≡ Ok None → HasProbed (N.net net.now) colours.old.items colours.new.items first.now }
    ensures found { IfOk result (λ r. IfSome r (λ w. (N.net net.now).accepts first.now.here ≡ true → IsFound (N.net net.now) w.stem.items w.cycle.items)) }
    ensures most { LooksAtMost (N.looked_of looks.old) (N.looked_of looks.new) (looks_left (N.net net.now) colours.old.items) }
    ensures paid { result ≡ Ok None → HasPaid (N.net net.now) (N.looked_of looks.old) (N.looked_of looks.new)
        colours.old.items colours.new.items ((N.net net.now).pairs first.now.here) }
{
    let mut path = DfsPath {
        stem: Vec::new(alloc),
        here: first.here,
        next: 0,
    };
    'marking: loop {
        if path.next < net.pairs_at(path.here) {
            match second_look(net, first, colours, &mut path, looks)? {
                Some(met) => return Ok(Some(close(alloc, first, &path, met)?)),
                None => {}
            }
        } else if !path.step_back() {
            return Ok(None);
        }
    }
}

/// The first search: a colour for each state, and its path.
#[derive(Drop)]
pub struct Search<'a, A: Allocator> {
    pub colours: Vec<Colour, &'a A>,
    pub dfs_path: DfsPath<'a, A>,
}

impl<'a, A: Allocator> Search<'a, A> {
    /// The search before its first look.
    fn new<N: Numbered>(alloc: &'a A, net: &N) -> Result<Self, AllocError>
        ensures searching { IfOk result (λ s. IsSearching (N.net net.now) s) }
        ensures unpaid { IfOk result (λ s. rest_of (N.net net.now) s.dfs_path ≡ spent (N.net net.now) s.colours.items) }
    {
        let mut colours = vec![in alloc; Colour::New; net.count()]?;
        let here = net.start();
        colours[here] = Colour::Open;
        let dfs_path = DfsPath {
            stem: Vec::new(alloc),
            here,
            next: 0,
        };
        Ok(Search { colours, dfs_path })
    }

    /// One look of the first pass.
    fn look<N: Numbered>(&mut self, net: &N, looks: &mut N::Looks) -> Result<(), AllocError>
        requires searching { IsSearching (N.net net.now) self.old }
        requires more { HasMore (N.net net.now) self.old.dfs_path }
        ensures on { OnOk result (IsLookOn (N.net net.now) self.old self.new) }
        ensures looked { N.looked_of looks.new ≡ counted (N.looked_of looks.old) 1 }
    {
        match net.look(self.dfs_path.here, self.dfs_path.next, looks) {
            Some(step) => match self.colours[step.target] {
                Colour::New => {
                    let taken = Taken {
                        state: self.dfs_path.here,
                        pick: self.dfs_path.next,
                        letter: step.letter,
                    };
                    self.dfs_path.stem.push(taken)?;
                    self.colours[step.target] = Colour::Open;
                    self.dfs_path.here = step.target;
                    self.dfs_path.next = 0;
                }
                _ => self.dfs_path.next += 1,
            },
            None => self.dfs_path.next += 1,
        }
        Ok(())
    }

    /// Leaves the current state: if it is accepting, the second search starts from it. Sets its colour.
    fn leave<N: Numbered>(
        &mut self,
        alloc: &'a A,
        net: &N,
        looks: &mut N::Looks,
    ) -> Result<Option<Walk<'a, A>>, AllocError>
        requires searching { IsSearching (N.net net.now) self.old }
        requires done { IsDone (N.net net.now) self.old.dfs_path }
        ensures left { result ≡ Ok None → HasLeft (N.net net.now) self.old self.new }
        ensures found { IfOk result (λ r. IfSome r (λ w. IsFound (N.net net.now) w.stem.items w.cycle.items)) }
        ensures most { LooksAtMost (N.looked_of looks.old) (N.looked_of looks.new) (looks_left (N.net net.now) self.old.colours.items) }
        ensures paid { result ≡ Ok None → HasPaid (N.net net.now) (N.looked_of looks.old) (N.looked_of looks.new)
            self.old.colours.items self.new.colours.items 0 }
    {
        if !net.accepts(self.dfs_path.here) {
            self.colours[self.dfs_path.here] = Colour::Left;
            return Ok(None);
        }
        match inner_search(alloc, net, &self.dfs_path, &mut self.colours, looks)? {
            Some(walk) => Ok(Some(walk)),
            None => {
                self.colours[self.dfs_path.here] = Colour::Probed;
                Ok(None)
            }
        }
    }
}

/// A path from the start, and a cycle from its end that passes an accepting state; `None` if there is no such path and cycle.
pub fn search_net<'a, N: Numbered, A: Allocator>(
    alloc: &'a A,
    net: &N,
    looks: &mut N::Looks,
) -> Result<Option<Walk<'a, A>>, AllocError>
    ensures found { IfOk result (λ r. IfSome r (λ w. IsFound (N.net net.now) w.stem.items w.cycle.items)) }
    ensures none { result ≡ Ok None → (stem cycle : List Taken) → IsFound (N.net net.now) stem cycle → ⊥ }
    ensures most { LooksAtMost (N.looked_of looks.old) (N.looked_of looks.new) (2 * sum_below (N.net net.now).pairs (N.net net.now).count) }
    ensures least { result ≡ Ok None → LooksAtReached (N.net net.now) (N.looked_of looks.old) (N.looked_of looks.new) }
{
    let mut search = Search::new(alloc, net)?;
    'entering: loop {
        if search.dfs_path.next < net.pairs_at(search.dfs_path.here) {
            search.look(net, looks)?;
        } else {
            match search.leave(alloc, net, looks)? {
                Some(walk) => return Ok(Some(walk)),
                None => {}
            }
            if !search.dfs_path.step_back() {
                return Ok(None);
            }
        }
    }
}
