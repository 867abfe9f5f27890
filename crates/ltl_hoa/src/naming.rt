//! The names of an automaton and of its states, as they are collected.

ghost use Rattle.std.specs.Prelude.{◌≡◌, None, IfOk, OnOk, option_map, slice_index_or};
ghost use Rattle.ltl_hoa.specs.TokenView.{token_of};
ghost use Rattle.ltl_hoa.specs.NamingView.{bytes_of, nameless, next_owner, kept, named};

use crate::number::number;
use crate::token::TokenKind;
use std::alloc::{AllocError, Allocator};
use std::marker::Model;

/// What a string would be the name of, if it came next.
#[derive(Clone, Copy)]
pub(crate) enum Owner {
    Nothing,
    Automaton,
    /// A state whose number has to come first.
    State,
    NumberedState(usize),
}

/// The names that a text has for its automaton and for its states.
#[derive(Drop)]
pub struct HoaNames<'a, A: Allocator> {
    automaton: Option<Vec<u8, &'a A>>,
    states: Vec<Option<Vec<u8, &'a A>>, &'a A>,
}

impl<'a, A: Allocator> Model for HoaNames<'a, A> {
    ghost use Rattle.std.specs.Prelude.{map};
    ghost use Rattle.ltl_spec.specs.Hoa.HoaNames.{HoaNames};
    ghost use Rattle.ltl_hoa.specs.NamingView.{bytes_of};

    ghost Value = { HoaNames };

    ghost view = { λ n. record { automaton = bytes_of n.automaton; states = map bytes_of n.states.items } };
}

/// What a string behind this token would be the name of.
pub(crate) fn next_owner(owner: Owner, kind: TokenKind, text: &[u8]) -> Owner
    ensures { result ≡ next_owner owner (token_of kind text.now) }
{
    match (owner, kind) {
        (_, TokenKind::Header) if text == b"name".as_slice() => Owner::Automaton,
        (_, TokenKind::Header) if text == b"State".as_slice() => Owner::State,
        (Owner::State, TokenKind::Int) => Owner::NumberedState(number(text)),
        _ => Owner::Nothing,
    }
}

/// Copies the string to a place for a name, unless there is one already.
fn keep<'a, A: Allocator>(
    alloc: &'a A,
    name: &mut Option<Vec<u8, &'a A>>,
    text: &[u8],
) -> Result<(), AllocError>
    ensures { OnOk result (bytes_of name.new ≡ kept (bytes_of name.old) text.now) }
{
    if name.is_none() {
        *name = Some(Vec::from_slice(alloc, text)?);
    }
    Ok(())
}

impl<'a, A: Allocator> HoaNames<'a, A> {
    /// No names, for an automaton with so many states.
    pub(crate) fn new(alloc: &'a A, states: usize) -> Result<HoaNames<'a, A>, AllocError>
        ensures { IfOk result (λ n. n ≡ nameless states) }
    {
        let mut names = Vec::with_capacity(alloc, states)?;
        'states: for _k in 0..states {
            names.push(None)?;
        }
        Ok(HoaNames {
            automaton: None,
            states: names,
        })
    }

    /// Takes a string, which is the first name of its owner or is ignored.
    pub(crate) fn take(&mut self, alloc: &'a A, owner: Owner, text: &[u8]) -> Result<(), AllocError>
        ensures { OnOk result (self.new ≡ named owner text.now self.old) }
    {
        match owner {
            Owner::Automaton => keep(alloc, &mut self.automaton, text),
            Owner::NumberedState(i) if i < self.states.len() => {
                keep(alloc, &mut self.states[i], text)
            }
            _ => Ok(()),
        }
    }

    /// The name of the automaton: the content of the first string right after `name:`.
    pub fn automaton(&self) -> Option<&[u8]>
        ensures { option_map (λ s. s.now) result ≡ self.now.automaton }
    {
        match &self.automaton {
            Some(name) => Some(name.as_slice()),
            None => None,
        }
    }

    /// The name of a state: the content of the first string right after `State:` and the state's number. It is `None` for a state that `hoa_names`
    /// wasn't asked for.
    pub fn state(&self, i: usize) -> Option<&[u8]>
        ensures { option_map (λ s. s.now) result ≡ slice_index_or self.now.states i None }
    {
        match self.states.get(i) {
            Some(Some(name)) => Some(name.as_slice()),
            _ => None,
        }
    }
}
