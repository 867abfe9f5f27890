//! Formulas made of two formulas. Propositions of both with one name are the same.

ghost use Rattle.std.specs.Prelude.{◌≡◌, ◌++◌, ◌-◌, ◌^◌, ◌≤◌, fold, length, map, IfOk, IfErr, OnOk};
ghost use Rattle.ltl_spec.specs.Collections.Lists.{place_of, with_new};
ghost use Rattle.ltl_spec.specs.Formulas.Names.{unified};
ghost use Rattle.ltl_spec.specs.Formulas.Tokens.{same_name};
ghost use Rattle.ltl_syntax.specs.FormulaView.{StandsAt, binary_of, reading_of};
ghost use Rattle.ltl_syntax.specs.CombinationView.{combination, joint_nodes, moved, moved_nodes, number_among};
ghost use Rattle.ltl_syntax.specs.ReadText.{RefusesNames};
ghost use Rattle.ltl_spec.specs.Tools.Limits.{stated_limits};

use crate::fault::ReadFault;
use crate::formula::Formula;
use crate::operators::{BinaryOperator, Node};
use crate::parser::NameSet;
use crate::reader::formula_from;
use indexmap::IndexSet;
use std::alloc::{AllocError, Allocator};
use std::hash::BuildHasherDefault;

/// Appends the name, unless it is among the names.
fn put_name<'t, 'a, A: Allocator>(
    names: &mut NameSet<'t, 'a, A>,
    name: &'t [u8],
) -> Result<(), AllocError>
    ensures { OnOk result (map (λ k. k.now) names.new.keys ≡ with_new same_name (map (λ k. k.now) names.old.keys) name.entry.now) }
{
    names.insert(name)?;
    Ok(())
}

/// Appends each name of the formula that isn't among the names.
fn put_names<'t, 'a, A: Allocator>(
    names: &mut NameSet<'t, 'a, A>,
    formula: &'t Formula<'a, A>,
) -> Result<(), AllocError>
    ensures { OnOk result (map (λ k. k.now) names.new.keys ≡ fold (with_new same_name) (map (λ k. k.now) names.old.keys) formula.entry.now.names) }
{
    for i in 0..formula.name_count() {
        put_name(names, formula.name(i).as_bytes())?;
    }
    Ok(())
}

/// The names of the first formula, followed by those of the second one that the first lacks.
fn unified_names<'t, 'a, A: Allocator>(
    alloc: &'a A,
    first: &'t Formula<'a, A>,
    second: &'t Formula<'a, A>,
) -> Result<NameSet<'t, 'a, A>, AllocError>
    ensures { IfOk result (λ names. map (λ k. k.now) names.keys ≡ unified first.entry.now.names second.entry.now.names) }
{
    let mut names = IndexSet::with_hasher(alloc, BuildHasherDefault::new());
    put_names(&mut names, first)?;
    put_names(&mut names, second)?;
    Ok(names)
}

/// The place of the name, or the number of names if it isn't there.
fn place_in<A: Allocator>(names: &NameSet<'_, '_, A>, name: &str) -> usize
    ensures { result ≡ place_of same_name name.now (map (λ k. k.now) names.now.keys) }
{
    names.get_index_of(name.as_bytes()).unwrap_or(names.len())
}

/// The node behind `base` other nodes, with the number that its proposition has among the names, if it is one.
fn moved_node<A: Allocator>(
    names: &NameSet<'_, '_, A>,
    formula: &Formula<'_, A>,
    node: Node,
    base: usize,
) -> Node
    requires { StandsAt (length formula.now.names) (2 ^ 63 - base) node }
    ensures { result ≡ moved base (number_among (map (λ k. k.now) names.now.keys) formula.now.names) node }
{
    match node {
        Node::Constant(value) => Node::Constant(value),
        Node::Proposition(p) => Node::Proposition(place_in(names, formula.name(p))),
        Node::Unary(operator, a) => Node::Unary(operator, base + a),
        Node::Binary(operator, a, b) => Node::Binary(operator, base + a, base + b),
    }
}

/// Appends the nodes of the formula, with the numbers that their propositions have among the names.
fn put_nodes<'a, A: Allocator>(
    nodes: &mut Vec<Node, &'a A>,
    names: &NameSet<'_, 'a, A>,
    formula: &Formula<'a, A>,
) -> Result<(), AllocError>
    ensures { OnOk result (nodes.new.items ≡ nodes.old.items
        ++ moved_nodes (length nodes.old.items) (map (λ k. k.now) names.now.keys) formula.now) }
{
    let base = nodes.len();
    'copying: for i in 0..formula.len() {
        let node = moved_node(names, formula, formula.node(i), base);
        nodes.push(node)?;
    }
    Ok(())
}

/// The nodes of both formulas, and a node of the operator on top, whose operands are the last nodes of both.
fn joint_nodes<'a, A: Allocator>(
    alloc: &'a A,
    operator: BinaryOperator,
    names: &NameSet<'_, 'a, A>,
    first: &Formula<'a, A>,
    second: &Formula<'a, A>,
) -> Result<Vec<Node, &'a A>, AllocError>
    ensures { IfOk result (λ nodes. nodes.items ≡ joint_nodes operator (map (λ k. k.now) names.now.keys) first.now second.now) }
{
    let most = first.len().saturating_add(second.len()).saturating_add(1);
    let mut nodes = Vec::with_capacity(alloc, most)?;
    put_nodes(&mut nodes, names, first)?;
    let left = nodes.len() - 1;
    put_nodes(&mut nodes, names, second)?;
    let right = nodes.len() - 1;
    nodes.push(Node::Binary(operator, left, right))?;
    Ok(nodes)
}

/// The formula of an operator and two operands.
pub(crate) fn combined<'a, A: Allocator>(
    alloc: &'a A,
    operator: BinaryOperator,
    first: &Formula<'a, A>,
    second: &Formula<'a, A>,
) -> Result<Formula<'a, A>, ReadFault>
    ensures combination { IfOk result (λ f. reading_of f ≡ combination (binary_of operator) (reading_of first.now) (reading_of second.now)) }
    ensures few { OnOk result (length (unified first.now.names second.now.names) ≤ stated_limits.propositions) }
    ensures refused { IfErr result (RefusesNames (length (unified first.now.names second.now.names))) }
{
    first.invariant();
    second.invariant();
    let names = unified_names(alloc, first, second)?;
    let nodes = joint_nodes(alloc, operator, &names, first, second)?;
    formula_from(alloc, nodes, &names)
}
