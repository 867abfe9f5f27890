//! The parser of the header, whose items may come in any order.

ghost use Rattle.std.specs.Prelude.{◌≡◌, ◌<◌, ◌≤◌, List, ℕ, map, drop, IfOk};
ghost use Rattle.ltl_hoa.specs.MarkedView.{edge_of};
ghost use Rattle.ltl_hoa.specs.TokenView.{token_of, kind_of};
ghost use Rattle.ltl_spec.specs.Hoa.HoaReading as reading;
ghost use Rattle.ltl_spec.specs.Hoa.HoaStep as table;
ghost use Rattle.ltl_hoa.specs.HeaderView as view;
ghost use Rattle.ltl_hoa.specs.HeaderView.{Leads, IsPartOf, acceptance_left, before_of, item_of, place_of};
ghost use Rattle.ltl_spec.specs.Hoa.HoaPlace.{Before, InAcceptance};
ghost use Rattle.ltl_spec.specs.Hoa.HoaReading.{acceptance_tokens};
ghost use Rattle.ltl_spec.specs.Hoa.HoaToken.{StringToken};

use crate::fault::{HoaFaultKind, Stop};
use crate::marked::{MOST_NAMES, MOST_SETS, MOST_STATES, Marked, MarkedEdge};
use crate::names::{is_listed, list_name};
use crate::number::number;
use crate::place::{AcceptancePart, ItemBefore, Place};
use crate::token::TokenKind;
use ltl_names::is_proposition;
use std::alloc::Allocator;
use std::marker::Model;

/// The numbers of states, propositions and acceptance sets.
#[derive(Clone, Copy)]
pub(crate) struct Counts {
    pub states: usize,
    pub names: usize,
    pub sets: usize,
}

/// The items that were read so far.
#[derive(Drop)]
pub(crate) struct Header<'a, A: Allocator> {
    alloc: &'a A,
    states: Option<usize>,
    start: Option<usize>,
    names: Option<Vec<String<&'a A>, &'a A>>,
    /// The number of names that are still missing in the list.
    left: usize,
    sets: Option<usize>,
}

impl<'a, A: Allocator> Model for Header<'a, A> {
    ghost use Rattle.std.specs.Prelude.{map, option_map, string_bytes};
    ghost use Rattle.ltl_hoa.specs.HeaderView.{HeaderView, IsHeader};

    ghost Value = { HeaderView };

    ghost view = { λ h. record {
      items = record { states = h.states; start = h.start; names = option_map (λ v. map string_bytes v.items) h.names; sets = h.sets };
      left = h.left;
    } };

    ghost invariant = { λ h. IsHeader (record {
      items = record { states = h.states; start = h.start; names = option_map (λ v. map string_bytes v.items) h.names; sets = h.sets };
      left = h.left;
    }) };
}

/// `BadToken` if the token is broken (it is unknown or not closed), else `fault`.
fn unless_broken(kind: TokenKind, fault: HoaFaultKind) -> HoaFaultKind
    ensures { (text : List ℕ) → kind_of result ≡ table.unless_broken (view.read kind text) (kind_of fault) }
{
    match kind {
        TokenKind::Unknown | TokenKind::UnclosedText | TokenKind::UnclosedComment => {
            HoaFaultKind::BadToken
        }
        _ => fault,
    }
}

/// Whether the name of an unknown item begins with an upper-case letter. By the format, such an item may change the meaning, and can't be skipped.
fn begins_upper(name: &[u8]) -> bool
    ensures { result ≡ reading.begins_upper name.now }
{
    match name {
        [first, ..] => first.is_ascii_uppercase(),
        [] => false,
    }
}

/// The place after the name of an item, or `ItemTwice` if the item was read before.
fn once(stood: bool, place: Place) -> Result<Place, Stop>
    ensures { (v : view.HeaderView) → view.Fits place v → Leads (table.begin_once (before_of v) stood (place_of place v)) result v }
{
    if stood {
        Err(Stop::Fault(HoaFaultKind::ItemTwice))
    } else {
        Ok(place)
    }
}

/// Takes a token after an item. The token isn't the name of the next item.
fn go_on(before: ItemBefore, kind: TokenKind) -> Result<Place, Stop>
    ensures { (v : view.HeaderView) (text : List ℕ) → Leads (table.go_on (before_of v) (item_of before) (view.read kind text)) result v }
{
    let fault = match (before, kind) {
        (ItemBefore::Other, TokenKind::Text | TokenKind::Identifier | TokenKind::Int) => {
            return Ok(Place::Item(ItemBefore::Other));
        }
        (ItemBefore::StartNumber, TokenKind::AndSign) => HoaFaultKind::Unsupported,
        (ItemBefore::ListedNames, TokenKind::Text) => HoaFaultKind::BadPropositionList,
        (ItemBefore::Acceptance, kind) => unless_broken(kind, HoaFaultKind::Unsupported),
        _ => HoaFaultKind::BadToken,
    };
    Err(Stop::Fault(fault))
}

/// The first part of the acceptance condition of this many sets.
fn first_part(sets: usize) -> AcceptancePart
    ensures next { (b : Before) → table.expect b (drop 1 (acceptance_tokens sets)) ≡ table.go_to b (InAcceptance (acceptance_left sets result)) }
    ensures inside { IsPartOf sets result }
{
    if sets == 0 {
        AcceptancePart::True
    } else {
        AcceptancePart::Inf(0)
    }
}

/// Takes `HOA:`.
fn at_format(kind: TokenKind, text: &[u8]) -> Result<Place, Stop>
    ensures { (v : view.HeaderView) → Leads (view.stepped Place.Format v (token_of kind text.now)) result v }
{
    match kind {
        TokenKind::Header if text == b"HOA".as_slice() => Ok(Place::Version),
        _ => Err(Stop::Fault(HoaFaultKind::NotHoaVersion1)),
    }
}

/// Takes the version `v1`.
fn at_version(kind: TokenKind, text: &[u8]) -> Result<Place, Stop>
    ensures { (v : view.HeaderView) → Leads (view.stepped Place.Version v (token_of kind text.now)) result v }
{
    match kind {
        TokenKind::Identifier if text == b"v1".as_slice() => Ok(Place::Item(ItemBefore::Plain)),
        _ => Err(Stop::Fault(HoaFaultKind::NotHoaVersion1)),
    }
}

impl<'a, A: Allocator> Header<'a, A> {
    pub(crate) fn new(alloc: &'a A) -> Header<'a, A>
        ensures { result ≡ view.new_header }
    {
        Header {
            alloc,
            states: None,
            start: None,
            names: None,
            left: 0,
            sets: None,
        }
    }

    /// Takes a token at the place `place`, and returns the next place. It never gets a `--BODY--` between two items.
    pub(crate) fn take(&mut self, place: Place, kind: TokenKind, text: &[u8]) -> Result<Place, Stop>
        ensures { view.Takes place self.old (token_of kind text.now) result self.new }
    {
        match place {
            Place::Format => at_format(kind, text),
            Place::Version => at_version(kind, text),
            Place::Item(before) => self.at_item(before, kind, text),
            Place::States => self.at_states(kind, text),
            Place::Start => self.at_start(kind, text),
            Place::Count => self.at_count(kind, text),
            Place::Names => self.at_names(kind, text),
            Place::Sets => self.at_sets(kind, text),
            Place::Acceptance(part) => self.in_acceptance(part, kind, text),
            Place::Body(_) | Place::End => Err(Stop::Fault(HoaFaultKind::BadToken)),
        }
    }

    fn at_item(&self, before: ItemBefore, kind: TokenKind, text: &[u8]) -> Result<Place, Stop>
        ensures { view.Takes (Place.Item before) self.now (token_of kind text.now) result self.now }
    {
        match kind {
            TokenKind::Header => self.begin_item(text),
            _ => go_on(before, kind),
        }
    }

    fn begin_item(&self, name: &[u8]) -> Result<Place, Stop>
        ensures { Leads (table.begin_item (before_of self.now) name.now) result self.now }
    {
        if name == b"HOA".as_slice() {
            Err(Stop::Fault(HoaFaultKind::ItemTwice))
        } else if name == b"States".as_slice() {
            once(self.states.is_some(), Place::States)
        } else if name == b"Start".as_slice() {
            once(self.start.is_some(), Place::Start)
        } else if name == b"AP".as_slice() {
            once(self.names.is_some(), Place::Count)
        } else if name == b"Acceptance".as_slice() {
            once(self.sets.is_some(), Place::Sets)
        } else if name == b"Alias".as_slice() {
            Err(Stop::Fault(HoaFaultKind::Unsupported))
        } else if begins_upper(name) {
            Err(Stop::Fault(HoaFaultKind::UnknownItem))
        } else {
            Ok(Place::Item(ItemBefore::Other))
        }
    }

    fn at_states(&mut self, kind: TokenKind, text: &[u8]) -> Result<Place, Stop>
        ensures { Leads (view.stepped Place.States self.old (token_of kind text.now)) result self.new }
    {
        if !matches!(kind, TokenKind::Int) {
            return Err(Stop::Fault(HoaFaultKind::BadToken));
        }
        let count = number(text);
        if count > MOST_STATES {
            return Err(Stop::Fault(HoaFaultKind::LimitPassed));
        }
        self.states = Some(count);
        Ok(Place::Item(ItemBefore::Plain))
    }

    fn at_start(&mut self, kind: TokenKind, text: &[u8]) -> Result<Place, Stop>
        ensures { Leads (view.stepped Place.Start self.old (token_of kind text.now)) result self.new }
    {
        if !matches!(kind, TokenKind::Int) {
            return Err(Stop::Fault(HoaFaultKind::BadToken));
        }
        self.start = Some(number(text));
        Ok(Place::Item(ItemBefore::StartNumber))
    }

    fn at_count(&mut self, kind: TokenKind, text: &[u8]) -> Result<Place, Stop>
        ensures { Leads (view.stepped Place.Count self.old (token_of kind text.now)) result self.new }
    {
        if !matches!(kind, TokenKind::Int) {
            return Err(Stop::Fault(HoaFaultKind::BadToken));
        }
        let count = number(text);
        if count > MOST_NAMES {
            return Err(Stop::Fault(HoaFaultKind::LimitPassed));
        }
        self.names = Some(Vec::new(self.alloc));
        self.left = count;
        Ok(self.after_name())
    }

    /// The place after a name, where another name or the next item comes.
    fn after_name(&self) -> Place
        ensures { view.IsBehindNames self.now result }
    {
        if self.left == 0 {
            Place::Item(ItemBefore::ListedNames)
        } else {
            Place::Names
        }
    }

    fn at_names(&mut self, kind: TokenKind, text: &[u8]) -> Result<Place, Stop>
        ensures { view.Fits Place.Names self.old → Leads (view.stepped Place.Names self.old (token_of kind text.now)) result self.new }
    {
        match kind {
            TokenKind::Text => self.add_name(text),
            kind => Err(Stop::Fault(unless_broken(kind, HoaFaultKind::BadPropositionList))),
        }
    }

    fn add_name(&mut self, name: &[u8]) -> Result<Place, Stop>
        ensures { view.Fits Place.Names self.old → Leads (view.stepped Place.Names self.old (StringToken name.now)) result self.new }
    {
        let Some(names) = &mut self.names else {
            return Err(Stop::Fault(HoaFaultKind::BadPropositionList));
        };
        if !is_proposition(name) || is_listed(names.as_slice(), name) || self.left == 0 {
            return Err(Stop::Fault(HoaFaultKind::BadPropositionList));
        }
        list_name(self.alloc, names, name)?;
        self.left -= 1;
        Ok(self.after_name())
    }

    fn at_sets(&mut self, kind: TokenKind, text: &[u8]) -> Result<Place, Stop>
        ensures { Leads (view.stepped Place.Sets self.old (token_of kind text.now)) result self.new }
    {
        if !matches!(kind, TokenKind::Int) {
            let fault = unless_broken(kind, HoaFaultKind::Unsupported);
            return Err(Stop::Fault(fault));
        }
        let count = number(text);
        if count > MOST_SETS {
            return Err(Stop::Fault(HoaFaultKind::LimitPassed));
        }
        self.sets = Some(count);
        Ok(Place::Acceptance(first_part(count)))
    }

    /// Takes a token of the acceptance condition.
    fn in_acceptance(
        &self,
        part: AcceptancePart,
        kind: TokenKind,
        text: &[u8],
    ) -> Result<Place, Stop>
        ensures { view.Takes (Place.Acceptance part) self.now (token_of kind text.now) result self.now }
    {
        match (part, kind) {
            (AcceptancePart::True, TokenKind::Identifier) if b"t".as_slice() == text => {
                Ok(Place::Item(ItemBefore::Acceptance))
            }
            (AcceptancePart::Inf(set), TokenKind::Identifier) if b"Inf".as_slice() == text => {
                Ok(Place::Acceptance(AcceptancePart::Open(set)))
            }
            (AcceptancePart::Open(set), TokenKind::OpenBracket) => {
                Ok(Place::Acceptance(AcceptancePart::Number(set)))
            }
            (AcceptancePart::Number(set), TokenKind::Int) if set == number(text) => {
                Ok(Place::Acceptance(AcceptancePart::Close(set)))
            }
            (AcceptancePart::Close(set), TokenKind::CloseBracket) => Ok(self.behind_set(set)),
            (AcceptancePart::And(set), TokenKind::AndSign) => {
                Ok(Place::Acceptance(AcceptancePart::Inf(set)))
            }
            _ => Err(Stop::Fault(unless_broken(kind, HoaFaultKind::Unsupported))),
        }
    }

    /// The place after a set of the acceptance condition, where another set or the next item comes.
    fn behind_set(&self, set: usize) -> Place
        ensures { view.IsBehindSet set self.now result }
    {
        if set < self.sets.unwrap_or(0).saturating_sub(1) {
            Place::Acceptance(AcceptancePart::And(set + 1))
        } else {
            Place::Item(ItemBefore::Acceptance)
        }
    }

    /// The counts of a complete header. It is an error if an item is missing, or if the initial state isn't below the number of states.
    pub(crate) fn counts(&self) -> Result<Counts, HoaFaultKind>
        ensures counts { view.Counted (view.body_begun self.now) self.now.items result }
        ensures names { IfOk result (λ c. c.names ≤ MOST_NAMES) }
        ensures sets { IfOk result (λ c. c.sets ≤ MOST_SETS) }
        ensures some { IfOk result (λ c. 0 < c.states) }
    {
        let (Some(states), Some(start), Some(names), Some(sets)) = (
            self.states,
            self.start,
            &self.names,
            self.sets,
        ) else {
            return Err(HoaFaultKind::ItemMissing);
        };
        if start >= states {
            return Err(HoaFaultKind::NumberOutOfRange);
        }
        Ok(Counts {
            states,
            names: names.len(),
            sets,
        })
    }

    /// The automaton with these edge lists, one for each state.
    pub(crate) fn finish(self, edges: Vec<Vec<MarkedEdge, &'a A>, &'a A>) -> Marked<'a, A>
        requires { view.IsWhole self (map (λ s. map edge_of s.items) edges.items) }
        ensures { view.IsAutomaton self.entry (map (λ s. map edge_of s.items) edges.entry.items) result }
    {
        let Header {
            alloc: _,
            states: _,
            start,
            names,
            left: _,
            sets,
        } = self;
        match (start, sets, names) {
            (Some(start), Some(sets), Some(names)) => Marked::new(start, sets, names, edges),
            _ => unreachable!(),
        }
    }
}
