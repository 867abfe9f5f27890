//! A hash-consed graph of subformulas in negation normal form: equal nodes are stored once.

ghost use Rattle.std.specs.Prelude.{◌≡◌, ◌<◌, length, IfOk};

use crate::row::Row;
use indexmap::IndexSet;
use std::alloc::{AllocError, Allocator};
use std::hash::{BuildHasherDefault, FoldHasher};
use std::marker::Model;

/// The number of the node `true`.
pub const TOP: usize = 0;

/// The number of the node `false`.
pub const BOTTOM: usize = 1;

/// Different nodes, numbered by first occurrence. A node comes after its operands, so the graph has no cycle.
#[derive(Drop)]
pub struct SharedNodes<'a, A: Allocator> {
    rows: IndexSet<Row, BuildHasherDefault<FoldHasher>, &'a A>,
    rewrite: bool,
}

impl<'a, A: Allocator> Model for SharedNodes<'a, A> {
    ghost use Rattle.std.specs.Prelude.{map};
    ghost use Rattle.ltl_spec.specs.NormalForms.SharedRewriting.{HasConstants};
    ghost use Rattle.ltl_formula.specs.SharedNodesView.{SharedNodesView, shared_nodes_of, node_of};

    ghost Value = { SharedNodesView };

    ghost view = { λ g. shared_nodes_of g.rows.keys g.rewrite };

    ghost invariant = { λ g. HasConstants (map node_of g.rows.keys) 0 1 };
}

impl<'a, A: Allocator> SharedNodes<'a, A> {
    ghost use Rattle.ltl_spec.specs.NormalForms.SharedNodes.{AllBefore, node_at, tree_at, tree_of};
    ghost use Rattle.ltl_spec.specs.NormalForms.SharedRewriting.{HasConstants, StandsFor};
    ghost use Rattle.ltl_spec.specs.NormalForms.Normal.{Top, Bottom};
    ghost use Rattle.ltl_formula.specs.SharedNodesView.{IsBelow, Makes, node_of};

    /// A graph of the two constants, with room for `count` more nodes. If `rewrite` is set, nodes that are built later are rewritten.
    pub fn new(alloc: &'a A, count: usize, rewrite: bool) -> Result<Self, AllocError>
        ensures { IfOk result (λ g. g.rewrite ≡ rewrite) }
    {
        let mut rows = IndexSet::with_capacity(alloc, count.saturating_add(8))?;
        rows.insert_full(Row::True)?;
        rows.insert_full(Row::False)?;
        Ok(SharedNodes { rows, rewrite })
    }

    /// The number of nodes.
    pub fn len(&self) -> usize
        ensures count { result ≡ length self.now.nodes }
        ensures constants { HasConstants self.now.nodes 0 1 }
    {
        self.rows.len()
    }

    /// The number of the node `true`.
    pub fn top(&self) -> usize
        ensures { StandsFor self.now.nodes result Top }
    {
        let _ = &self.rows;
        TOP
    }

    /// The number of the node `false`.
    pub fn bottom(&self) -> usize
        ensures { StandsFor self.now.nodes result Bottom }
    {
        let _ = &self.rows;
        BOTTOM
    }

    /// Whether nodes are rewritten when they are built.
    pub fn rewrites(&self) -> bool
        ensures rewrite { result ≡ self.now.rewrite }
        ensures constants { HasConstants self.now.nodes 0 1 }
    {
        self.rewrite
    }

    /// The node with this number. The numbers of its operands are smaller.
    pub fn node(&self, k: usize) -> Row
        requires { k < length self.now.nodes }
        ensures found { node_of result ≡ node_at self.now.nodes k }
        ensures operands { IsBelow k result }
    {
        self.rows[k]
    }

    /// The number of a node. A node that isn't there gets the next number.
    pub fn intern(&mut self, node: Row) -> Result<usize, AllocError>
        requires { AllBefore (length self.old.nodes) (node_of node) }
        ensures { IfOk result (λ k. Makes self.old self.new k (tree_of (tree_at self.old.nodes) (node_of node))) }
    {
        let (number, _) = self.rows.insert_full(node)?;
        Ok(number)
    }
}
