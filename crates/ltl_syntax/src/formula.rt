//! Formulas as syntax trees.

ghost use Rattle.std.specs.Prelude.{◌≡◌, ◌<◌, ◌≤◌, length, slice_index_or, slice_get, Some, [], map, string_bytes, IfOk, IfErr, OnOk};
ghost use Rattle.ltl_syntax.specs.FormulaView.{IsFormula, StandsAt, reading_of, whole_tree};
ghost use Rattle.ltl_syntax.specs.CombinationView.{IsEquivalence, IsImplication, combination};
ghost use Rattle.ltl_syntax.specs.ReadText.{RefusesNames};
ghost use Rattle.ltl_spec.specs.Formulas.Formula.{Iff, Implies};
ghost use Rattle.ltl_spec.specs.Formulas.Names.{unified};
ghost use Rattle.ltl_spec.specs.Tools.Limits.{stated_limits};
ghost use Rattle.ltl_spec.specs.Formulas.Canonical.{canonical_text, formula_text};

use crate::combining::combined;
use crate::fault::ReadFault;
use crate::operators::{BinaryOperator, Node};
use std::alloc::Allocator;
use std::marker::Model;

/// A formula that was read or made of two: its nodes in postorder, so that operands come before their operators and the whole formula is last; the
/// names of its propositions, numbered by first occurrence; and its canonical text.
#[derive(Drop)]
pub struct Formula<'a, A: Allocator> {
    nodes: Vec<Node, &'a A>,
    names: Vec<String<&'a A>, &'a A>,
    text: Vec<u8, &'a A>,
}

impl<'a, A: Allocator> Model for Formula<'a, A> {
    ghost use Rattle.std.specs.Prelude.{map, string_bytes};
    ghost use Rattle.ltl_syntax.specs.FormulaView.{FormulaView, IsFormula, reading_of};

    ghost Value = { FormulaView };

    ghost view = { λ f. record { nodes = f.nodes.items; names = map string_bytes f.names.items } };

    ghost use Rattle.std.specs.Prelude.{◌≡◌};
    ghost use Rattle.ltl_spec.specs.Formulas.Canonical.{canonical_text};

    ghost invariant = { λ f. IsFormula f.nodes.items (map string_bytes f.names.items)
        × (f.text.items ≡ canonical_text (reading_of (record { nodes = f.nodes.items; names = map string_bytes f.names.items }))) };
}

impl<'a, A: Allocator> Formula<'a, A> {
    /// The formula with these parts.
    pub(crate) fn from_parts(
        nodes: Vec<Node, &'a A>,
        names: Vec<String<&'a A>, &'a A>,
        text: Vec<u8, &'a A>,
    ) -> Formula<'a, A>
        requires formula { IsFormula nodes.items (map string_bytes names.items) }
        requires canonical { text.items ≡ formula_text (map string_bytes names.items) (whole_tree nodes.items) }
        ensures nodes { result.nodes ≡ nodes.entry.items }
        ensures names { result.names ≡ map string_bytes names.entry.items }
    {
        Formula { nodes, names, text }
    }

    /// The canonical text.
    pub fn text(&self) -> &[u8]
        ensures { result.now ≡ canonical_text (reading_of self.now) }
    {
        self.text.as_slice()
    }

    /// The number of nodes, which is at least 1.
    pub fn len(&self) -> usize
        ensures count { result ≡ length self.now.nodes }
        ensures formula { IsFormula self.now.nodes self.now.names }
    {
        self.nodes.len()
    }

    /// Gives a caller's proof the invariant of the type. It does nothing when it runs.
    pub fn invariant(&self)
        ensures { IsFormula self.now.nodes self.now.names }
    {
        let _ = &self.nodes;
    }

    /// The node with this number. The numbers of its operands are smaller.
    pub fn node(&self, i: usize) -> Node
        requires { i < length self.now.nodes }
        ensures found { slice_get self.now.nodes i ≡ Some result }
        ensures operands { StandsAt (length self.now.names) i result }
    {
        self.nodes[i]
    }

    /// The number of different propositions.
    pub fn name_count(&self) -> usize
        ensures { result ≡ length self.now.names }
    {
        self.names.len()
    }

    /// The name of a proposition.
    pub fn name(&self, i: usize) -> &str
        requires { i < length self.now.names }
        ensures { result.now ≡ slice_index_or self.now.names i [] }
    {
        self.names[i].as_str()
    }
    /// The formula `self -> other`. Propositions of both with one name are the same; those of `other` that `self` lacks are numbered behind its own.
    ///
    /// # Errors
    ///
    /// There are more than `PROPOSITION_LIMIT` propositions together, or memory is refused.
    pub fn implies(&self, alloc: &'a A, other: &Formula<'a, A>) -> Result<Formula<'a, A>, ReadFault>
        ensures meaning { IfOk result (λ f. IsImplication (reading_of self.now) (reading_of other.now) (reading_of f)) }
        ensures combination { IfOk result (λ f. reading_of f ≡ combination Implies (reading_of self.now) (reading_of other.now)) }
        ensures few { OnOk result (length (unified self.now.names other.now.names) ≤ stated_limits.propositions) }
        ensures refused { IfErr result (RefusesNames (length (unified self.now.names other.now.names))) }
    {
        combined(alloc, BinaryOperator::Implies, self, other)
    }

    /// The formula `self <-> other`, with propositions as in `implies`.
    ///
    /// # Errors
    ///
    /// Those of `implies`.
    pub fn iff(&self, alloc: &'a A, other: &Formula<'a, A>) -> Result<Formula<'a, A>, ReadFault>
        ensures meaning { IfOk result (λ f. IsEquivalence (reading_of self.now) (reading_of other.now) (reading_of f)) }
        ensures combination { IfOk result (λ f. reading_of f ≡ combination Iff (reading_of self.now) (reading_of other.now)) }
        ensures few { OnOk result (length (unified self.now.names other.now.names) ≤ stated_limits.propositions) }
        ensures refused { IfErr result (RefusesNames (length (unified self.now.names other.now.names))) }
    {
        combined(alloc, BinaryOperator::Iff, self, other)
    }
}
