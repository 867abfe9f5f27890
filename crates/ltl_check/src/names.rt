//! The propositions of an automaton and of a formula, unified by name.

ghost use Rattle.std.specs.Prelude.{◌≡◌, ◌<◌, ◌≤◌, ℕ, [], length, map, fold, slice_index_or, IfOk, OnOk};
ghost use Rattle.ltl_spec.specs.Collections.Lists as lists;
ghost use Rattle.ltl_spec.specs.Formulas.Tokens.{same_name};
ghost use Rattle.ltl_spec.specs.Formulas.Names.{unified};
ghost use Rattle.ltl_check.specs.ProductView.{ArePlaces};

use crate::operand::Operand;
use ltl_syntax::Formula;
use std::alloc::{AllocError, Allocator};

fn is_same(a: &str, b: &str) -> bool
    ensures { result ≡ same_name a.now b.now }
{
    a == b
}

/// The position of the name in the list, or the length of the list if it isn't there.
fn place_of(names: &[&str], name: &str) -> usize
    ensures place { result ≡ lists.place_of same_name name.now (map (λ n. n.now) names.now) }
    ensures within { result ≤ length names.now }
{
    for place in 0..names.len() {
        let other = names[place];
        if is_same(name, other) {
            return place;
        }
    }
    names.len()
}

/// Appends the name, unless it is in the list.
fn put<'p, 'a, A: Allocator>(
    names: &mut Vec<&'p str, &'a A>,
    name: &'p str,
) -> Result<(), AllocError>
    ensures { OnOk result (map (λ n. n.now) names.new.items ≡ lists.with_new same_name (map (λ n. n.now) names.old.items) name.entry.now) }
{
    if place_of(names.as_slice(), name) < names.len() {
        return Ok(());
    }
    names.push(name)?;
    Ok(())
}

/// Appends each name of the automaton that isn't in the list.
fn put_all<'p, 'a, F: Operand, A: Allocator>(
    names: &mut Vec<&'p str, &'a A>,
    automaton: &'p F,
) -> Result<(), AllocError>
    ensures { OnOk result (map (λ n. n.now) names.new.items
        ≡ fold (lists.with_new same_name) (map (λ n. n.now) names.old.items) (F.automaton_of automaton.entry.now).names) }
{
    for i in 0..automaton.name_count() {
        put(names, automaton.name(i))?;
    }
    Ok(())
}

/// Appends each name of the formula that isn't in the list.
fn put_formula<'p, 'a, A: Allocator>(
    names: &mut Vec<&'p str, &'a A>,
    formula: &'p Formula<'a, A>,
) -> Result<(), AllocError>
    ensures { OnOk result (map (λ n. n.now) names.new.items ≡ fold (lists.with_new same_name) (map (λ n. n.now) names.old.items) formula.entry.now.names) }
{
    for i in 0..formula.name_count() {
        put(names, formula.name(i))?;
    }
    Ok(())
}

/// The names of the automaton, followed by those names of the formula that the automaton lacks.
#[tactic(auto, using(crate::proofs::NameLaws::unified_is))]
pub(crate) fn all_names<'p, 'a, F: Operand, A: Allocator>(
    alloc: &'a A,
    automaton: &'p F,
    formula: &'p Formula<'a, A>,
) -> Result<Vec<&'p str, &'a A>, AllocError>
    ensures { IfOk result (λ names. map (λ n. n.now) names.items ≡ unified (F.automaton_of automaton.entry.now).names formula.entry.now.names) }
{
    let mut names = Vec::new(alloc);
    put_all(&mut names, automaton)?;
    put_formula(&mut names, formula)?;
    Ok(names)
}

/// For each proposition of the formula, its position among these names.
pub(crate) fn numbers<'a, A: Allocator>(
    alloc: &'a A,
    names: &[&str],
    formula: &Formula<'a, A>,
) -> Result<Vec<usize, &'a A>, AllocError>
    ensures count { IfOk result (λ ns. length ns.items ≡ length formula.now.names) }
    ensures numbers { IfOk result (λ ns. ArePlaces ns.items formula.now.names (map (λ n. n.now) names.now)) }
{
    let mut numbers = Vec::new(alloc);
    for i in 0..formula.name_count() {
        numbers.push(place_of(names, formula.name(i)))?;
    }
    Ok(numbers)
}
