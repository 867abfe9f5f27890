//! The parser of the body: states and their edges.

ghost use Rattle.std.specs.Prelude.{◌≡◌, ◌<◌, ◌≤◌, [], ◌∷◌, ◌++◌, List, ℕ, IfOk, OnOk, map, length};
ghost use Rattle.ltl_hoa.specs.TokenView.{token_of, kind_of};
ghost use Rattle.ltl_hoa.specs.MarkedView.{edge_of};
ghost use Rattle.ltl_hoa.specs.BodyView as view;
ghost use Rattle.ltl_hoa.specs.NumberView.{capped};
ghost use Rattle.ltl_hoa.specs.Shown.{StepsAt, StepsInLabel, Takes, TakesAt};
ghost use Rattle.ltl_spec.specs.Hoa.HoaPlace.{AtState, AtNumber, AfterNumber, AfterName, InStateSets, AtEdge};
ghost use Rattle.ltl_spec.specs.Hoa.HoaPlace.{AtTarget, AfterTarget, InEdgeSets, AtOperand, AfterOperand};
ghost use Rattle.ltl_spec.specs.Hoa.HoaToken.{Int, Identifier, CloseBracket, CloseLabel};

use crate::fault::{HoaFaultKind, Stop};
use crate::header::Counts;
use crate::marked::{MOST_EDGES, MOST_NAMES, MOST_SETS, MarkedEdge};
use crate::marks::Marks;
use crate::number::number;
use crate::place::{BodyPlace, Place};
use crate::token::TokenKind;
use ltl_label::{CubeList, Label};
use ltl_sets::Cube;
use smallvec::SmallVec;
use std::alloc::{AllocError, Allocator};
use std::marker::Model;

/// The states that were read so far. The last edge isn't stored with its state as long as its acceptance sets may follow.
#[derive(Drop)]
pub(crate) struct Body<'a, A: Allocator> {
    counts: Counts,
    /// For each state, whether its definition was met.
    defined: Vec<bool, &'a A>,
    edges: Vec<Vec<MarkedEdge, &'a A>, &'a A>,
    /// The number of edges that the labels so far make.
    made: usize,
    /// The state whose definition was met last, and its acceptance sets.
    at: usize,
    sets: Marks,
    label: Label<'a, A>,
    /// The last edge: the cubes of its label, its target and its acceptance sets.
    cubes: CubeList<'a, A>,
    target: usize,
    own: Marks,
}

impl<'a, A: Allocator> Model for Body<'a, A> {
    ghost use Rattle.std.specs.Prelude.{map};
    ghost use Rattle.ltl_hoa.specs.BodyView.{BodyView, IsBody};
    ghost use Rattle.ltl_hoa.specs.MarkedView.{edge_of};

    ghost Value = { BodyView };

    ghost view = { λ b. record {
      counts = b.counts;
      defined = b.defined.items;
      edges = map (λ s. map edge_of s.items) b.edges.items;
      made = b.made;
      at = b.at;
      sets = b.sets;
      label = b.label;
      cubes = b.cubes.items;
      target = b.target;
      own = b.own;
    } };

    ghost invariant = { λ b. IsBody (record {
      counts = b.counts;
      defined = b.defined.items;
      edges = map (λ s. map edge_of s.items) b.edges.items;
      made = b.made;
      at = b.at;
      sets = b.sets;
      label = b.label;
      cubes = b.cubes.items;
      target = b.target;
      own = b.own;
    }) };
}

/// Takes a token where a state or the end of the body may come.
fn at_state(kind: TokenKind, text: &[u8]) -> Result<Place, Stop>
    ensures { (v : view.BodyView) → StepsAt AtState v (token_of kind text.now) result v }
{
    match kind {
        TokenKind::Header if text == b"State".as_slice() => Ok(Place::Body(BodyPlace::Number)),
        TokenKind::End => Ok(Place::End),
        _ => Err(Stop::Fault(HoaFaultKind::BadToken)),
    }
}

/// An empty edge list for each state.
fn no_edges<'a, A: Allocator>(
    alloc: &'a A,
    states: usize,
) -> Result<Vec<Vec<MarkedEdge, &'a A>, &'a A>, AllocError>
    ensures { IfOk result (λ v. map (λ s. map edge_of s.items) v.items ≡ view.no_edges states) }
{
    let mut edges = Vec::new(alloc);
    'states: for _k in 0..states {
        edges.push(Vec::new(alloc))?;
    }
    Ok(edges)
}

/// `false` for each state.
fn none_defined<'a, A: Allocator>(
    alloc: &'a A,
    states: usize,
) -> Result<Vec<bool, &'a A>, AllocError>
    ensures { IfOk result (λ v. v.items ≡ view.none_defined states) }
{
    let mut defined = Vec::new(alloc);
    'states: for _k in 0..states {
        defined.push(false)?;
    }
    Ok(defined)
}

/// Appends one edge for each of the cubes.
fn file_all<A: Allocator>(
    edges: &mut Vec<MarkedEdge, &A>,
    cubes: &[Cube],
    target: usize,
    sets: Marks,
) -> Result<(), AllocError>
    ensures { OnOk result (map edge_of edges.new.items ≡ map edge_of edges.old.items
        ++ map (λ c. record { cube = c; target = target; marks = sets }) cubes.now) }
{
    'cubes: for cube in cubes {
        edges.push(MarkedEdge {
            cube: *cube,
            target,
            sets,
        })?;
    }
    Ok(())
}

impl<'a, A: Allocator> Body<'a, A> {
    /// A body with the counts of the header, in which nothing was read. There is at least one state.
    pub(crate) fn new(alloc: &'a A, counts: Counts) -> Result<Body<'a, A>, AllocError>
        requires some { 0 < counts.states }
        requires names { counts.names ≤ MOST_NAMES }
        requires sets { counts.sets ≤ MOST_SETS }
        ensures { IfOk result (λ b. b ≡ view.new_body counts) }
    {
        Ok(Body {
            counts,
            defined: none_defined(alloc, counts.states)?,
            edges: no_edges(alloc, counts.states)?,
            made: 0,
            at: 0,
            sets: Marks::empty(),
            label: Label::new(alloc),
            cubes: SmallVec::new(alloc),
            target: 0,
            own: Marks::empty(),
        })
    }

    /// Takes a token at the place `place`, and returns the next place.
    pub(crate) fn take(
        &mut self,
        place: BodyPlace,
        kind: TokenKind,
        text: &[u8],
    ) -> Result<Place, Stop>
        ensures { Takes place self.old (token_of kind text.now) result self.new }
    {
        match kind {
            TokenKind::Abort => Err(Stop::Fault(HoaFaultKind::Unsupported)),
            kind => self.take_at(place, kind, text),
        }
    }

    /// Takes a token other than `--ABORT--` at the place `place`.
    fn take_at(&mut self, place: BodyPlace, kind: TokenKind, text: &[u8]) -> Result<Place, Stop>
        ensures { TakesAt place self.old (token_of kind text.now) result self.new }
    {
        match place {
            BodyPlace::State => at_state(kind, text),
            BodyPlace::Number => self.at_number(kind, text),
            BodyPlace::AfterNumber => self.after_number(kind, text),
            BodyPlace::AfterName => self.after_name(kind, text),
            BodyPlace::StateSets => self.in_state_sets(kind, text),
            BodyPlace::Edge => self.at_edge(kind, text),
            BodyPlace::Operand => self.at_operand(kind, text),
            BodyPlace::AfterOperand => self.after_operand(kind),
            BodyPlace::Target => self.at_target(kind, text),
            BodyPlace::AfterTarget => self.after_target(kind, text),
            BodyPlace::EdgeSets => self.in_edge_sets(kind, text),
        }
    }

    fn at_number(&mut self, kind: TokenKind, text: &[u8]) -> Result<Place, Stop>
        ensures { StepsAt AtNumber self.old (token_of kind text.now) result self.new }
    {
        match kind {
            TokenKind::Int => self.define(number(text)),
            TokenKind::OpenLabel => Err(Stop::Fault(HoaFaultKind::Unsupported)),
            _ => Err(Stop::Fault(HoaFaultKind::BadToken)),
        }
    }

    /// Begins the definition of the state with this number.
    #[tactic(auto, using(crate::proofs::BodySteps::no_state, crate::proofs::BodySteps::state_twice, crate::proofs::BodySteps::state_begun))]
    fn define(&mut self, number: usize) -> Result<Place, Stop>
        ensures { (n : ℕ) → number ≡ capped n → StepsAt AtNumber self.old (Int n) result self.new }
    {
        if number >= self.counts.states {
            return Err(Stop::Fault(HoaFaultKind::NumberOutOfRange));
        }
        if self.defined[number] {
            return Err(Stop::Fault(HoaFaultKind::StateDefinedTwice));
        }
        self.defined[number] = true;
        self.at = number;
        self.sets = Marks::empty();
        Ok(Place::Body(BodyPlace::AfterNumber))
    }

    fn after_number(&mut self, kind: TokenKind, text: &[u8]) -> Result<Place, Stop>
        ensures { StepsAt AfterNumber self.old (token_of kind text.now) result self.new }
    {
        match kind {
            TokenKind::Text => Ok(Place::Body(BodyPlace::AfterName)),
            kind => self.after_name(kind, text),
        }
    }

    fn after_name(&mut self, kind: TokenKind, text: &[u8]) -> Result<Place, Stop>
        ensures { StepsAt AfterName self.old (token_of kind text.now) result self.new }
    {
        match kind {
            TokenKind::OpenSets => Ok(Place::Body(BodyPlace::StateSets)),
            kind => self.at_edge(kind, text),
        }
    }

    #[tactic(auto, using(crate::proofs::BodySteps::no_state_set, crate::proofs::BodySteps::state_set))]
    fn in_state_sets(&mut self, kind: TokenKind, text: &[u8]) -> Result<Place, Stop>
        ensures { StepsAt InStateSets self.old (token_of kind text.now) result self.new }
    {
        match kind {
            TokenKind::Int => {
                let set = number(text);
                if set >= self.counts.sets {
                    return Err(Stop::Fault(HoaFaultKind::NumberOutOfRange));
                }
                self.sets.insert(set);
                Ok(Place::Body(BodyPlace::StateSets))
            }
            TokenKind::CloseSets => Ok(Place::Body(BodyPlace::Edge)),
            _ => Err(Stop::Fault(HoaFaultKind::BadToken)),
        }
    }

    #[tactic(auto, using(crate::proofs::BodySteps::label_begun))]
    fn at_edge(&mut self, kind: TokenKind, text: &[u8]) -> Result<Place, Stop>
        ensures { StepsAt AtEdge self.old (token_of kind text.now) result self.new }
    {
        match kind {
            TokenKind::OpenLabel => {
                self.label.begin();
                Ok(Place::Body(BodyPlace::Operand))
            }
            TokenKind::Int => Err(Stop::Fault(HoaFaultKind::Unsupported)),
            kind => at_state(kind, text),
        }
    }

    #[tactic(auto, using(crate::proofs::BodySteps::label_negated, crate::proofs::BodySteps::bracket_opened, crate::proofs::BodySteps::no_memory))]
    fn at_operand(&mut self, kind: TokenKind, text: &[u8]) -> Result<Place, Stop>
        ensures { StepsInLabel AtOperand self.old (token_of kind text.now) result self.new }
    {
        match kind {
            TokenKind::NotSign => {
                self.label.negate();
                Ok(Place::Body(BodyPlace::Operand))
            }
            TokenKind::OpenBracket => {
                self.label.open()?;
                Ok(Place::Body(BodyPlace::Operand))
            }
            TokenKind::Int => self.add_proposition(number(text)),
            TokenKind::Identifier => self.add_constant(text),
            _ => Err(Stop::Fault(HoaFaultKind::BadToken)),
        }
    }

    #[tactic(auto, using(crate::proofs::BodySteps::no_proposition, crate::proofs::BodySteps::proposition_put, crate::proofs::BodySteps::no_memory))]
    fn add_proposition(&mut self, number: usize) -> Result<Place, Stop>
        ensures { (n : ℕ) → number ≡ capped n → StepsInLabel AtOperand self.old (Int n) result self.new }
    {
        if number >= self.counts.names {
            return Err(Stop::Fault(HoaFaultKind::NumberOutOfRange));
        }
        self.label.proposition(number)?;
        Ok(Place::Body(BodyPlace::AfterOperand))
    }

    #[tactic(auto, using(crate::proofs::BodySteps::true_put, crate::proofs::BodySteps::false_put, crate::proofs::BodySteps::no_memory))]
    fn add_constant(&mut self, name: &[u8]) -> Result<Place, Stop>
        ensures { StepsInLabel AtOperand self.old (Identifier name.now) result self.new }
    {
        if name == b"t".as_slice() {
            self.label.constant(true)?;
        } else if name == b"f".as_slice() {
            self.label.constant(false)?;
        } else {
            return Err(Stop::Fault(HoaFaultKind::BadToken));
        }
        Ok(Place::Body(BodyPlace::AfterOperand))
    }

    #[tactic(auto, using(crate::proofs::BodySteps::alternative_put, crate::proofs::BodySteps::no_memory))]
    fn after_operand(&mut self, kind: TokenKind) -> Result<Place, Stop>
        ensures { (text : List ℕ) → StepsInLabel AfterOperand self.old (token_of kind text) result self.new }
    {
        match kind {
            TokenKind::AndSign => Ok(Place::Body(BodyPlace::Operand)),
            TokenKind::OrSign => {
                self.label.alternative()?;
                Ok(Place::Body(BodyPlace::Operand))
            }
            TokenKind::CloseBracket => self.close_bracket(),
            TokenKind::CloseLabel => self.close_label(),
            _ => Err(Stop::Fault(HoaFaultKind::BadToken)),
        }
    }

    /// Takes a closing bracket after an operand.
    #[tactic(auto, using(crate::proofs::BodySteps::bracket_closed, crate::proofs::BodySteps::no_bracket, crate::proofs::BodySteps::no_memory))]
    fn close_bracket(&mut self) -> Result<Place, Stop>
        ensures { StepsInLabel AfterOperand self.old CloseBracket result self.new }
    {
        if !self.label.close()? {
            return Err(Stop::Fault(HoaFaultKind::BadToken));
        }
        Ok(Place::Body(BodyPlace::AfterOperand))
    }

    /// Ends the label, and takes its cubes.
    #[tactic(auto, using(crate::proofs::BodySteps::still_open, crate::proofs::BodySteps::label_wide, crate::proofs::BodySteps::too_many, crate::proofs::BodySteps::label_ended, crate::proofs::BodySteps::no_memory))]
    fn close_label(&mut self) -> Result<Place, Stop>
        ensures { StepsInLabel AfterOperand self.old CloseLabel result self.new }
    {
        if !self.label.is_closed() {
            return Err(Stop::Fault(HoaFaultKind::BadToken));
        }
        let Some(cubes) = self.label.whole()? else {
            return Err(Stop::Fault(HoaFaultKind::LimitPassed));
        };
        if self.made + cubes.len() > MOST_EDGES {
            return Err(Stop::Fault(HoaFaultKind::LimitPassed));
        }
        self.made += cubes.len();
        self.cubes = cubes;
        Ok(Place::Body(BodyPlace::Target))
    }

    #[tactic(auto, using(crate::proofs::BodySteps::no_target, crate::proofs::BodySteps::target_taken))]
    fn at_target(&mut self, kind: TokenKind, text: &[u8]) -> Result<Place, Stop>
        ensures { StepsAt AtTarget self.old (token_of kind text.now) result self.new }
    {
        if !matches!(kind, TokenKind::Int) {
            return Err(Stop::Fault(HoaFaultKind::BadToken));
        }
        let target = number(text);
        if target >= self.counts.states {
            return Err(Stop::Fault(HoaFaultKind::NumberOutOfRange));
        }
        self.target = target;
        self.own = self.sets;
        Ok(Place::Body(BodyPlace::AfterTarget))
    }

    #[tactic(auto, using(crate::proofs::BodySteps::no_memory))]
    fn after_target(&mut self, kind: TokenKind, text: &[u8]) -> Result<Place, Stop>
        ensures { StepsAt AfterTarget self.old (token_of kind text.now) result self.new }
    {
        match kind {
            TokenKind::AndSign => Err(Stop::Fault(HoaFaultKind::Unsupported)),
            TokenKind::OpenSets => Ok(Place::Body(BodyPlace::EdgeSets)),
            kind => {
                self.file()?;
                self.at_edge(kind, text)
            }
        }
    }

    #[tactic(auto, using(crate::proofs::BodySteps::no_edge_set, crate::proofs::BodySteps::edge_set, crate::proofs::BodySteps::edge_closed, crate::proofs::BodySteps::no_memory))]
    fn in_edge_sets(&mut self, kind: TokenKind, text: &[u8]) -> Result<Place, Stop>
        ensures { StepsAt InEdgeSets self.old (token_of kind text.now) result self.new }
    {
        match kind {
            TokenKind::Int => {
                let set = number(text);
                if set >= self.counts.sets {
                    return Err(Stop::Fault(HoaFaultKind::NumberOutOfRange));
                }
                self.own.insert(set);
                Ok(Place::Body(BodyPlace::EdgeSets))
            }
            TokenKind::CloseSets => {
                self.file()?;
                Ok(Place::Body(BodyPlace::Edge))
            }
            _ => Err(Stop::Fault(HoaFaultKind::BadToken)),
        }
    }

    /// Stores the last edge with its state, as one edge for each cube.
    fn file(&mut self) -> Result<(), AllocError>
        ensures { OnOk result (self.new ≡ view.filed self.old) }
    {
        file_all(
            &mut self.edges[self.at],
            self.cubes.as_slice(),
            self.target,
            self.own,
        )?;
        Ok(())
    }

    /// The edge lists of the states.
    pub(crate) fn into_edges(self) -> Vec<Vec<MarkedEdge, &'a A>, &'a A>
        ensures { map (λ s. map edge_of s.items) result.items ≡ self.entry.edges }
    {
        self.edges
    }
}
