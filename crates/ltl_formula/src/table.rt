//! The table of a formula: the rows of its normal form.

ghost use Rattle.ltl_spec.specs.Tools.Limits.{stated_limits};
ghost use Rattle.std.specs.Prelude.{◌≡◌, ◌<◌, ◌≤◌, ◌-◌, All, length, slice_get, Some, IfOk, IsErrOf};
ghost use Rattle.ltl_formula.specs.declared.limits.TheConstants.{ROW_LIMIT};

use crate::build_fault::BuildFault;
use crate::limits::ELEMENTARY_ROW_LIMIT;
use crate::needs::needed_forms;
use crate::places::{
    ElementaryPlaces, UntilPlaces, elementary_places, numbered_rows, until_places,
};
use crate::polarity::core_number;
use crate::row::Row;
use crate::shared_nodes::SharedNodes;
use crate::walk::row_numbers;
use ltl_syntax::Formula;
use std::alloc::Allocator;
use std::marker::Model;

/// The different subformulas of the normal form of a formula or of its negation, numbered by first occurrence in postorder. So operands come before
/// their operators, and the whole formula is the last row, the root.
#[derive(Drop)]
pub struct Table<'a, A: Allocator> {
    rows: Vec<Row, &'a A>,
    untils: UntilPlaces<'a, A>,
    elementary: ElementaryPlaces<'a, A>,
}

impl<'a, A: Allocator> Model for Table<'a, A> {
    ghost use Rattle.ltl_formula.specs.TableView.{TableView, IsTable};

    ghost Value = { TableView };

    ghost view = { λ t. record { rows = t.rows.items; untils = t.untils.items; elementary = t.elementary.items } };

    ghost invariant = { λ t. IsTable (record { rows = t.rows.items; untils = t.untils.items; elementary = t.elementary.items }) };
}

impl<'a, A: Allocator> Table<'a, A> {
    ghost use Rattle.ltl_spec.specs.NormalForms.NormalForm.{core, elementary_rows, rows};
    ghost use Rattle.ltl_spec.specs.Checking.Bounds.{HasLeavesBelow};
    ghost use Rattle.ltl_spec.specs.NormalForms.SharedNodes.{tree_at};
    ghost use Rattle.ltl_syntax.specs.FormulaView.{reading_of};
    ghost use Rattle.ltl_formula.specs.SharedNodesView.{IsBelow};
    ghost use Rattle.ltl_formula.specs.TableView.{IsNamedBelow, IsTable, core_of};

    /// The table of a formula, or of its negation if `negate` is set. Subformulas are rewritten if `rewrite` is set. Memory, and the expected time,
    /// are linear in the number of nodes.
    pub fn build<B: Allocator>(
        alloc: &'a A,
        formula: &Formula<'_, B>,
        negate: bool,
        rewrite: bool,
    ) -> Result<Table<'a, A>, BuildFault>
        ensures table { IfOk result IsTable }
        ensures core { IfOk result (λ t. core_of t ≡ core (reading_of formula.now).formula negate rewrite) }
        ensures literals { IfOk result (λ t. All (IsNamedBelow (length formula.now.names)) t.rows) }

        // A limit is passed if `TooManyRows` or `TooManyElementaryRows` comes. Memory may be refused at any time.
        ensures rows { IsErrOf result BuildFault.TooManyRows → stated_limits.rows < length (rows (core (reading_of formula.now).formula negate rewrite)) }
        ensures few { IsErrOf result BuildFault.TooManyElementaryRows → length
            (rows (core (reading_of formula.now).formula negate rewrite)) ≤ stated_limits.rows }
        ensures elementary { IsErrOf result BuildFault.TooManyElementaryRows
            → stated_limits.elementary_rows < length (elementary_rows (core (reading_of formula.now).formula negate rewrite)) }
    {
        let needed = needed_forms(alloc, formula, negate)?;
        let mut graph = SharedNodes::new(alloc, needed.count, rewrite)?;
        let root = core_number(alloc, &mut graph, formula, negate, needed.needs.as_slice())?;
        Table::of_node(alloc, &graph, root)
    }

    /// The table whose root is a node of the graph.
    fn of_node(
        alloc: &'a A,
        graph: &SharedNodes<'_, A>,
        root: usize,
    ) -> Result<Table<'a, A>, BuildFault>
        requires inside { root < length graph.now.nodes }
        requires literals { HasLeavesBelow stated_limits.propositions (tree_at graph.now.nodes root) }
        ensures table { IfOk result IsTable }
        ensures core { IfOk result (λ t. core_of t ≡ tree_at graph.now.nodes root) }
        ensures rows { IsErrOf result BuildFault.TooManyRows → stated_limits.rows < length (rows (tree_at graph.now.nodes root)) }
        ensures few { IsErrOf result BuildFault.TooManyElementaryRows → length (rows (tree_at graph.now.nodes root)) ≤ stated_limits.rows }
        ensures elementary { IsErrOf result BuildFault.TooManyElementaryRows
            → stated_limits.elementary_rows < length (elementary_rows (tree_at graph.now.nodes root)) }
    {
        let rows = {
            let numbers = row_numbers(alloc, graph, root)?;
            numbered_rows(alloc, graph, &numbers)?
        };
        let untils = until_places(alloc, &rows)?;
        let elementary = elementary_places(alloc, &rows)?;
        if elementary.len() > ELEMENTARY_ROW_LIMIT {
            return Err(BuildFault::TooManyElementaryRows);
        }
        Ok(Table {
            rows,
            untils,
            elementary,
        })
    }

    /// The number of rows, which is at least 1.
    pub fn len(&self) -> usize
        ensures count { result ≡ length self.now.rows }
        ensures table { IsTable self.now }
    {
        self.rows.len()
    }

    /// Gives a caller's proof the invariant of the type. It does nothing when it runs.
    pub fn invariant(&self)
        ensures { IsTable self.now }
    {
        let _ = &self.rows;
    }

    /// The row with this number. The numbers of its operands are smaller.
    pub fn row(&self, i: usize) -> Row
        requires { i < length self.now.rows }
        ensures found { slice_get self.now.rows i ≡ Some result }
        ensures operands { IsBelow i result }
        ensures literal { IsNamedBelow stated_limits.propositions result }
    {
        self.rows[i]
    }

    /// The number of the root, which is the last row.
    pub fn root(&self) -> usize
        ensures last { result ≡ length self.now.rows - 1 }
        ensures table { IsTable self.now }
    {
        self.rows.len() - 1
    }

    /// The numbers of the rows whose operator is `U`, in ascending order.
    pub fn untils(&self) -> &[usize]
        ensures { result.now ≡ self.now.untils }
    {
        &self.untils
    }

    /// The numbers of the elementary rows, in ascending order: the literals, the rows whose operator is `X`, `U` or `V`, and the root.
    pub fn elementary(&self) -> &[usize]
        ensures { result.now ≡ self.now.elementary }
    {
        &self.elementary
    }
}
