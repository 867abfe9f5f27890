//! The reader of formulas.

ghost use Rattle.std.specs.Prelude.{◌≡◌, ◌<◌, ◌≤◌, [], true, length, map, string_bytes, IfOk, MatchResult};
ghost use Rattle.std.specs.List.{AllByRecursion};
ghost use Rattle.ltl_spec.specs.Formulas.Names.{IsNameWord, IsNamed};
ghost use Rattle.ltl_syntax.specs.FormulaView.{reading_of, whole_tree};
ghost use Rattle.ltl_syntax.specs.CanonicalWork.{HasOperands};
ghost use Rattle.ltl_syntax.specs.ParserView.{AreUsedOnce};
ghost use Rattle.ltl_syntax.specs.ReadText.{IsReadAs, IsRefusedFor, RefusesNames};

use crate::canonical::canonical;
use crate::fault::ReadFault;
use crate::formula::Formula;
use crate::lexer::lex;
use crate::limits::{PROPOSITION_LIMIT, TEXT_LIMIT};
use crate::operators::Node;
use crate::parser::{NameSet, Parser};
use std::alloc::{AllocError, Allocator};

/// Reads a formula, in one pass and without recursion.
pub fn read<'a, A: Allocator>(alloc: &'a A, text: &[u8]) -> Result<Formula<'a, A>, ReadFault>
    ensures { MatchResult result (IsReadAs text.now) (IsRefusedFor text.now) }
{
    if text.len() > TEXT_LIMIT {
        return Err(ReadFault::TooLong);
    }
    let mut parser = Parser::new(alloc);
    let mut tokens = lex(text);
    'tokens: while let Some(token) = tokens.next() {
        parser.take(text, token)?;
    }
    parser.finish(text.len())?;
    let (nodes, names) = parser.into_parts();
    formula_from(alloc, nodes, &names)
}

/// The formula with these nodes and names, if the names aren't too many.
pub(crate) fn formula_from<'a, A: Allocator>(
    alloc: &'a A,
    nodes: Vec<Node, &'a A>,
    names: &NameSet<'_, 'a, A>,
) -> Result<Formula<'a, A>, ReadFault>
    requires some { 0 < length nodes.items }
    requires operands { HasOperands (length names.now.keys) nodes.items }
    requires once { AreUsedOnce nodes.items [] true }
    requires named { IsNamed (record { formula = whole_tree nodes.items; names = map (λ k. k.now) names.now.keys }) }
    ensures { MatchResult result
        (λ f. (f.nodes ≡ nodes.entry.items) × (f.names ≡ map (λ k. k.now) names.now.keys) × (length f.names ≤ PROPOSITION_LIMIT))
        (RefusesNames (length names.now.keys)) }
{
    if names.len() > PROPOSITION_LIMIT {
        return Err(ReadFault::TooManyPropositions);
    }
    let names = owned_names(alloc, names)?;
    let text = canonical(alloc, nodes.as_slice(), names.as_slice())?;
    Ok(Formula::from_parts(nodes, names, text))
}

/// Copies of the names.
fn owned_names<'a, A: Allocator>(
    alloc: &'a A,
    names: &NameSet<'_, 'a, A>,
) -> Result<Vec<String<&'a A>, &'a A>, AllocError>
    requires { AllByRecursion IsNameWord (map (λ k. k.now) names.now.keys) }
    ensures { IfOk result (λ owned. map string_bytes owned.items ≡ map (λ k. k.now) names.now.keys) }
{
    let mut owned = Vec::with_capacity(alloc, names.len())?;
    for name in names.iter() {
        owned.push(owned_name(alloc, name)?)?;
    }
    Ok(owned)
}

fn owned_name<'a, A: Allocator>(alloc: &'a A, name: &[u8]) -> Result<String<&'a A>, AllocError>
    requires { IsNameWord name.now }
    ensures { IfOk result (λ owned. string_bytes owned ≡ name.now) }
{
    match str::from_utf8(name) {
        Ok(name) => String::from_str(alloc, name),
        Err(_) => unreachable!(),
    }
}
