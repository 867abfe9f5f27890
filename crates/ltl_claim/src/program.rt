//! The program that is built: its statements with their links, its labels and its names.

ghost use Rattle.std.specs.Prelude.{◌≡◌, ◌≤◌, ℕ, [], ◌∷◌, ◌++◌, length, map, slice_get, slice_index_or, List, IfOk, OnOk, OnErr};
ghost use Rattle.std.specs.List.{list_all, list_any};
ghost use Rattle.ltl_spec.specs.Semantics.Word.{Name};
ghost use Rattle.ltl_spec.specs.Claims.ClaimProgram as claims;
ghost use Rattle.ltl_spec.specs.Claims.ClaimMachine as machine;
ghost use Rattle.ltl_claim.specs.ClaimStep as step;
ghost use Rattle.ltl_claim.specs.ProgramView.{Acts, HoldsGuards, built_of, first_kind, guards_of, is_otherwise, jump_made, label_of, link_of, loop_at, new_option, next_set, no_statement, nothing_built, option_added, option_next_set, option_of, step_of, topped, with_link, with_statement, written};

use indexmap::IndexMap;
use std::alloc::{AllocError, Allocator};
use std::hash::{BuildHasherDefault, FoldHasher};
use std::marker::Model;
use std::mem;

/// A step of a guard in postfix order.
#[derive(Clone, Copy)]
pub(crate) enum NamedStep<'t> {
    Constant(bool),
    Named(&'t [u8]),
    Not,
    And,
    Or,
}

/// Where the item that comes next in a list will be linked.
#[derive(Clone, Copy)]
pub(crate) enum Hole {
    AtStart,
    Nowhere,
    BehindStatement(usize),
    WithinOption(usize, usize),
}

/// What comes next in a list: a statement, a `goto`, a `break`, or the end of the list.
#[derive(Clone, Copy)]
pub(crate) enum Link<'t> {
    Go(usize),
    Jump(&'t [u8]),
    Leave,
    Nothing,
}

/// What an option begins with: `assert`, `atomic` and a plain guard have their guards apart.
#[derive(Clone, Copy)]
pub(crate) enum First<'t> {
    Test,
    Check,
    Both,
    Otherwise,
    Leaps(Link<'t>),
}

/// An option, and what comes behind its first part.
#[derive(Drop)]
pub(crate) struct ClaimOption<'t, 'a, A: Allocator> {
    pub first: First<'t>,
    pub guards: Vec<NamedStep<'t>, &'a A>,
    pub next: Link<'t>,
}

impl<'t, 'a, A: Allocator> Model for ClaimOption<'t, 'a, A> {
    ghost use Rattle.std.specs.Prelude.{map};
    ghost use Rattle.ltl_claim.specs.ProgramView.{HoldsGuards, OptionView, first_kind, link_of, step_of};

    ghost Value = { OptionView };

    ghost view = { λ o. record { kind = first_kind o.first; steps = map step_of o.guards.items; next = link_of o.next } };

    ghost invariant = { λ o. HoldsGuards (first_kind o.first) (map step_of o.guards.items) };
}

/// A statement: the selection around it, whether it is a `do`, its options, and what comes next.
#[derive(Drop)]
pub(crate) struct Statement<'t, 'a, A: Allocator> {
    pub around: Option<usize>,
    pub loops: bool,
    pub options: Vec<ClaimOption<'t, 'a, A>, &'a A>,
    pub next: Link<'t>,
}

impl<'t, 'a, A: Allocator> Model for Statement<'t, 'a, A> {
    ghost use Rattle.ltl_claim.specs.ProgramView.{StatementView, link_of};

    ghost Value = { StatementView };

    ghost view = { λ s. record { around = s.around; loops = s.loops; options = s.options.items; next = link_of s.next } };
}

/// Labels and the numbers of their statements, in the order of the text.
pub(crate) type Labels<'t, 'a, A> = IndexMap<
    &'t [u8],
    usize,
    BuildHasherDefault<FoldHasher>,
    &'a A,
>;

/// The program so far, with the guards that have still to be used and the open selections.
#[derive(Drop)]
pub(crate) struct Program<'t, 'a, A: Allocator> {
    alloc: &'a A,
    /// The guards, the last one at the end, and their number.
    guards: Vec<NamedStep<'t>, &'a A>,
    depth: usize,
    /// The open selections, the innermost one at the end, and how many of them are a `do`.
    selections: Vec<usize, &'a A>,
    loops: usize,
    hole: Hole,
    start: Link<'t>,
    statements: Vec<Statement<'t, 'a, A>, &'a A>,
    labels: Labels<'t, 'a, A>,
    gotos: Vec<&'t [u8], &'a A>,
}

impl<'t, 'a, A: Allocator> Model for Program<'t, 'a, A> {
    ghost use Rattle.std.specs.Prelude.{map};
    ghost use Rattle.ltl_claim.specs.ProgramView.{AreGuards, AreOpen, BuiltView, hole_of, label_of, link_of, step_of};

    ghost Value = { BuiltView };

    ghost view = { λ p. record {
      steps = map step_of p.guards.items;
      selections = p.selections.items;
      hole = hole_of p.hole;
      start = link_of p.start;
      statements = p.statements.items;
      labels = map (label_of (λ l. l.now)) p.labels.entries;
      gotos = map (λ l. l.now) p.gotos.items;
    } };

    ghost invariant = { λ p. AreGuards p.depth (map step_of p.guards.items) × AreOpen p.loops p.selections.items p.statements.items };
}

impl<'t, 'a, A: Allocator> ClaimOption<'t, 'a, A> {
    /// An option at the end of its list.
    fn new(first: First<'t>, guards: Vec<NamedStep<'t>, &'a A>) -> ClaimOption<'t, 'a, A>
        requires { HoldsGuards (first_kind first) (map step_of guards.items) }
        ensures { result ≡ new_option (first_kind first.entry) (map step_of guards.entry.items) }
    {
        ClaimOption {
            first,
            guards,
            next: Link::Nothing,
        }
    }

    fn set_next(&mut self, link: Link<'t>)
        ensures { self.new ≡ record self.old { next = link_of link.entry } }
    {
        self.next = link;
    }

    fn is_otherwise(&self) -> bool
        ensures { result ≡ is_otherwise self.now }
    {
        matches!(self.first, First::Otherwise)
    }
}

impl<'t, 'a, A: Allocator> Statement<'t, 'a, A> {
    pub(crate) fn loops(&self) -> bool
        ensures { result ≡ self.now.loops }
    {
        self.loops
    }

    fn set_next(&mut self, link: Link<'t>)
        ensures { self.new ≡ next_set (link_of link.entry) self.old }
    {
        self.next = link;
    }

    /// Sets what comes behind the first part of an option, if there is this option.
    #[tactic(auto, using(crate::proofs::ProgramLaws::changed_set, crate::proofs::ProgramLaws::changed_past))]
    fn set_option_next(&mut self, j: usize, link: Link<'t>)
        ensures { self.new ≡ option_next_set j (link_of link.entry) self.old }
    {
        if j < self.options.len() {
            self.options[j].set_next(link);
        }
    }

    /// Adds an option, and returns its number.
    fn add_option(&mut self, option: ClaimOption<'t, 'a, A>) -> Result<usize, AllocError>
        ensures number { IfOk result (λ j. j ≡ length self.old.options) }
        ensures added { OnOk result (self.new ≡ option_added option.entry self.old) }
        ensures kept { OnErr result (self.new ≡ self.old) }
    {
        let j = self.options.len();
        self.options.push(option)?;
        Ok(j)
    }

    fn has_otherwise(&self) -> bool
        ensures { result ≡ list_any is_otherwise self.now.options }
    {
        self.options.iter().any(|option| option.is_otherwise())
    }
}

/// Sets what comes behind a statement, if there is this statement.
#[tactic(auto, using(crate::proofs::ProgramLaws::changed_set, crate::proofs::ProgramLaws::changed_past))]
fn set_next<'t, 'a, A: Allocator>(
    statements: &mut Vec<Statement<'t, 'a, A>, &'a A>,
    i: usize,
    link: Link<'t>,
)
    ensures { statements.new.items ≡ machine.changed (next_set (link_of link.entry)) i statements.old.items }
{
    if i < statements.len() {
        statements[i].set_next(link);
    }
}

/// Sets what comes behind the first part of an option of a statement, if there is this option.
#[tactic(auto, using(crate::proofs::ProgramLaws::changed_set, crate::proofs::ProgramLaws::changed_past))]
fn set_option_next<'t, 'a, A: Allocator>(
    statements: &mut Vec<Statement<'t, 'a, A>, &'a A>,
    i: usize,
    j: usize,
    link: Link<'t>,
)
    ensures { statements.new.items ≡ machine.changed (option_next_set j (link_of link.entry)) i statements.old.items }
{
    if i < statements.len() {
        statements[i].set_option_next(j, link);
    }
}

/// Adds an option to a statement, if there is this statement, and returns the option's number, or 0.
#[tactic(auto, using(crate::proofs::ProgramLaws::changed_set, crate::proofs::ProgramLaws::changed_past, crate::proofs::OpenLaws::kept_set))]
fn add_option<'t, 'a, A: Allocator>(
    statements: &mut Vec<Statement<'t, 'a, A>, &'a A>,
    i: usize,
    option: ClaimOption<'t, 'a, A>,
) -> Result<usize, AllocError>
    ensures number { IfOk result (λ j. j ≡ length (slice_index_or statements.old.items i no_statement).options) }
    ensures added { OnOk result (statements.new.items ≡ machine.changed (option_added option.entry) i statements.old.items) }
    ensures kept { OnErr result (statements.new.items ≡ statements.old.items) }
{
    if i >= statements.len() {
        return Ok(0);
    }
    statements[i].add_option(option)
}

/// Whether it is the number of a `do`.
fn is_loop<A: Allocator>(statements: &[Statement<'_, '_, A>], i: usize) -> bool
    ensures { result ≡ (slice_index_or statements.now i no_statement).loops }
{
    match statements.get(i) {
        Some(statement) => statement.loops(),
        None => false,
    }
}

/// 1 for the number of a `do`, and 0 for another one.
fn loop_at<A: Allocator>(statements: &[Statement<'_, '_, A>], i: usize) -> usize
    ensures exact { result ≡ loop_at statements.now i }
    ensures few { result ≤ 1 }
{
    if is_loop(statements, i) { 1 } else { 0 }
}

/// Whether the selection with this number has an `else`.
fn has_otherwise_at<A: Allocator>(statements: &[Statement<'_, '_, A>], i: usize) -> bool
    ensures { result ≡ list_any is_otherwise (slice_index_or statements.now i no_statement).options }
{
    match statements.get(i) {
        Some(statement) => statement.has_otherwise(),
        None => false,
    }
}

/// Whether each of the names is a label.
fn are_labels<A: Allocator>(labels: &Labels<'_, '_, A>, names: &[&[u8]]) -> bool
    ensures { result ≡ list_all (λ n. machine.is_label n.now (map (label_of (λ l. l.now)) labels.now.entries)) names.now }
{
    names.iter().all(|name| is_label(labels, *name))
}

#[tactic(auto, using(crate::proofs::ProgramLaws::labels_view))]
fn is_label<A: Allocator>(labels: &Labels<'_, '_, A>, name: &[u8]) -> bool
    ensures { result ≡ machine.is_label name.now (map (label_of (λ l. l.now)) labels.now.entries) }
{
    labels.contains_key(name)
}

impl<'t, 'a, A: Allocator> Program<'t, 'a, A> {
    #[tactic(auto, using(crate::proofs::GuardLaws::no_guards, crate::proofs::OpenLaws::none_open))]
    pub(crate) fn new(alloc: &'a A) -> Program<'t, 'a, A>
        ensures { result ≡ nothing_built }
    {
        Program {
            alloc,
            guards: Vec::new(alloc),
            depth: 0,
            selections: Vec::new(alloc),
            loops: 0,
            hole: Hole::AtStart,
            start: Link::Nothing,
            statements: Vec::new(alloc),
            labels: IndexMap::with_hasher(alloc, BuildHasherDefault::new()),
            gotos: Vec::new(alloc),
        }
    }

    /// The number of statements.
    pub(crate) fn len(&self) -> usize
        ensures { result ≡ length self.now.statements }
    {
        self.statements.len()
    }

    pub(crate) fn is_label(&self, name: &[u8]) -> bool
        ensures { result ≡ machine.is_label name.now self.now.labels }
    {
        is_label(&self.labels, name)
    }

    /// The innermost selection.
    #[tactic(auto, using(crate::proofs::ProgramLaws::top_last))]
    fn innermost(&self) -> Option<usize>
        ensures { result ≡ slice_get (topped self.now.selections) 0 }
    {
        self.selections.last().copied()
    }

    /// Whether a `break` may stand here: in a `do`.
    pub(crate) fn may_leave(&self) -> bool
        ensures { (names : List Name) → result ≡ machine.may_leave claims.Leave (built_of names self.now) }
    {
        self.loops > 0
    }

    /// Whether the innermost selection has an `else`.
    pub(crate) fn has_otherwise(&self) -> bool
        ensures { (names : List Name) → result ≡ step.has_otherwise (built_of names self.now) }
    {
        has_otherwise_at(&self.statements, self.innermost().unwrap_or(0))
    }

    #[tactic(auto, using(crate::proofs::ProgramLaws::guards_more, crate::proofs::GuardLaws::constant_more, crate::proofs::GuardLaws::few_depth, crate::proofs::GuardLaws::same_guards, crate::proofs::ProgramLaws::few_guards))]
    pub(crate) fn push_constant(&mut self, value: bool) -> Result<bool, AllocError>
        ensures { Acts (machine.pushed (claims.Constant value)) self.old result self.new }
    {
        self.guards.push(NamedStep::Constant(value))?;
        self.depth += 1;
        Ok(true)
    }

    /// Pushes the name of a proposition. The caller keeps the list of names.
    #[tactic(auto, using(crate::proofs::ProgramLaws::guards_more, crate::proofs::GuardLaws::name_more, crate::proofs::GuardLaws::few_depth, crate::proofs::GuardLaws::same_guards, crate::proofs::ProgramLaws::few_guards))]
    pub(crate) fn push_name(&mut self, name: &'t [u8]) -> Result<(), AllocError>
        ensures { OnOk result ((names : List Name) → machine.named name.now (built_of names self.old) ≡ Some (built_of (names ++ name.now ∷ []) self.new)) }
    {
        self.guards.push(NamedStep::Named(name))?;
        self.depth += 1;
        Ok(())
    }

    #[tactic(auto, using(crate::proofs::GuardLaws::not_more, crate::proofs::GuardLaws::same_guards))]
    pub(crate) fn negate(&mut self) -> Result<bool, AllocError>
        ensures { Acts machine.negated self.old result self.new }
    {
        if self.depth == 0 {
            return Ok(false);
        }
        self.guards.push(NamedStep::Not)?;
        Ok(true)
    }

    #[tactic(auto, using(crate::proofs::GuardLaws::and_more, crate::proofs::GuardLaws::same_guards))]
    pub(crate) fn join_and(&mut self) -> Result<bool, AllocError>
        ensures { Acts (machine.joined claims.And) self.old result self.new }
    {
        if self.depth < 2 {
            return Ok(false);
        }
        self.guards.push(NamedStep::And)?;
        self.depth -= 1;
        Ok(true)
    }

    #[tactic(auto, using(crate::proofs::GuardLaws::or_more, crate::proofs::GuardLaws::same_guards))]
    pub(crate) fn join_or(&mut self) -> Result<bool, AllocError>
        ensures { Acts (machine.joined claims.Or) self.old result self.new }
    {
        if self.depth < 2 {
            return Ok(false);
        }
        self.guards.push(NamedStep::Or)?;
        self.depth -= 1;
        Ok(true)
    }

    /// Links what comes next in a list at the hole.
    fn link(&mut self, link: Link<'t>)
        ensures { self.new ≡ with_link (link_of link.entry) self.old }
    {
        match self.hole {
            Hole::AtStart => self.start = link,
            Hole::Nowhere => {}
            Hole::BehindStatement(i) => set_next(&mut self.statements, i, link),
            Hole::WithinOption(i, j) => set_option_next(&mut self.statements, i, j, link),
        }
    }

    /// Adds a statement, the next one in its list.
    fn state(
        &mut self,
        loops: bool,
        options: Vec<ClaimOption<'t, 'a, A>, &'a A>,
    ) -> Result<(), AllocError>
        ensures { OnOk result (self.new ≡ with_statement loops options.entry.items self.old) }
    {
        let i = self.statements.len();
        let around = self.innermost();
        self.link(Link::Go(i));
        self.statements.push(Statement {
            around,
            loops,
            options,
            next: Link::Nothing,
        })?;
        self.hole = Hole::BehindStatement(i);
        Ok(())
    }

    /// Begins an option of the innermost selection.
    #[tactic(auto, using(crate::proofs::ProgramLaws::no_option_view))]
    fn begin_option(&mut self, option: ClaimOption<'t, 'a, A>) -> Result<bool, AllocError>
        requires { option.next ≡ claims.Nothing }
        ensures { Acts (machine.option_begun (option_of option.entry).first) self.old result self.new }
    {
        let Some(i) = self.innermost() else {
            return Ok(false);
        };
        let j = add_option(&mut self.statements, i, option)?;
        self.hole = Hole::WithinOption(i, j);
        Ok(true)
    }

    /// Takes the guards, if there are so many. If there aren't, it is reported as lack of memory: no sequence of tokens leads there.
    #[tactic(auto, using(crate::proofs::GuardLaws::no_guards))]
    fn take_guards(&mut self, count: usize) -> Result<Vec<NamedStep<'t>, &'a A>, AllocError>
        ensures guards { IfOk result (λ guards. map step_of guards.items ≡ self.old.steps) }
        ensures count { OnOk result (length (guards_of self.old.steps) ≡ count) }
        ensures whole { OnOk result (self.old.steps ≡ written (guards_of self.old.steps)) }
        ensures taken { OnOk result (self.new ≡ record self.old { steps = [] }) }
    {
        if self.depth != count {
            return Err(AllocError);
        }
        self.depth = 0;
        Ok(mem::replace(&mut self.guards, Vec::new(self.alloc)))
    }

    /// Adds an option with its first part, of the innermost selection or as a statement.
    fn end_head(&mut self, inside: bool, option: ClaimOption<'t, 'a, A>) -> Result<bool, AllocError>
        requires { option.next ≡ claims.Nothing }
        ensures { Acts (machine.head_ended inside (option_of option.entry).first) self.old result self.new }
    {
        if inside {
            return self.begin_option(option);
        }
        let mut options = Vec::with_capacity(self.alloc, 1)?;
        options.push(option)?;
        self.state(false, options)?;
        Ok(true)
    }

    /// A guard as the beginning of an option or as a statement.
    pub(crate) fn test(&mut self, inside: bool) -> Result<bool, AllocError>
        ensures { Acts (machine.one_tested claims.Test inside) self.old result self.new }
    {
        let guards = self.take_guards(1)?;
        self.end_head(inside, ClaimOption::new(First::Test, guards))
    }

    /// An assertion as the beginning of an option or as a statement.
    pub(crate) fn check(&mut self, inside: bool) -> Result<bool, AllocError>
        ensures { Acts (machine.one_tested claims.Check inside) self.old result self.new }
    {
        let guards = self.take_guards(1)?;
        self.end_head(inside, ClaimOption::new(First::Check, guards))
    }

    /// An `atomic` as the beginning of an option or as a statement.
    pub(crate) fn test_both(&mut self, inside: bool) -> Result<bool, AllocError>
        ensures { Acts (machine.both_tested inside) self.old result self.new }
    {
        let guards = self.take_guards(2)?;
        self.end_head(inside, ClaimOption::new(First::Both, guards))
    }

    /// Adds a label of the statement that comes next.
    pub(crate) fn label(&mut self, name: &'t [u8]) -> Result<bool, AllocError>
        ensures { Acts (machine.label_found name.now) self.old result self.new }
    {
        if self.is_label(name) || name.starts_with(b"end") {
            return Ok(false);
        }
        let next = self.statements.len();
        self.labels.insert(name, next)?;
        Ok(true)
    }

    pub(crate) fn leave(&mut self, inside: bool) -> Result<bool, AllocError>
        ensures { Acts (machine.jumped inside claims.Leave []) self.old result self.new }
    {
        if !self.may_leave() {
            return Ok(false);
        }
        self.jump(inside, Link::Leave)
    }

    pub(crate) fn goto(&mut self, inside: bool, name: &'t [u8]) -> Result<bool, AllocError>
        ensures { Acts (machine.jumped inside (claims.Jump name.now) (name.now ∷ [])) self.old result self.new }
    {
        self.gotos.push(name)?;
        self.jump(inside, Link::Jump(name))
    }

    /// A jump in a list, or as what an option begins with.
    fn jump(&mut self, inside: bool, link: Link<'t>) -> Result<bool, AllocError>
        ensures { Acts (jump_made inside (link_of link.entry)) self.old result self.new }
    {
        if inside {
            let option = ClaimOption::new(First::Leaps(link), Vec::new(self.alloc));
            return self.begin_option(option);
        }
        self.link(link);
        self.hole = Hole::Nowhere;
        Ok(true)
    }

    pub(crate) fn otherwise(&mut self) -> Result<bool, AllocError>
        ensures { Acts machine.otherwise self.old result self.new }
    {
        if self.has_otherwise() {
            return Ok(false);
        }
        let option = ClaimOption::new(First::Otherwise, Vec::new(self.alloc));
        self.begin_option(option)
    }

    pub(crate) fn open(&mut self, loops: bool) -> Result<bool, AllocError>
        ensures { Acts (machine.opened loops) self.old result self.new }
    {
        let i = self.statements.len();
        let options = Vec::new(self.alloc);
        self.state(loops, options)?;
        self.selections.push(i)?;
        self.loops += loop_at(&self.statements, i);
        Ok(true)
    }

    #[tactic(auto, using(crate::proofs::OpenLaws::one_closed, crate::proofs::OpenLaws::open_counts))]
    pub(crate) fn close(&mut self) -> Result<bool, AllocError>
        ensures { Acts machine.closed self.old result self.new }
    {
        let Some(i) = self.selections.pop() else {
            return Ok(false);
        };
        self.loops -= loop_at(&self.statements, i);
        self.hole = Hole::BehindStatement(i);
        Ok(true)
    }

    /// Whether each `goto` has its label.
    pub(crate) fn are_labelled(&self) -> bool
        ensures { result ≡ list_all (λ l. machine.is_label l self.now.labels) self.now.gotos }
    {
        are_labels(&self.labels, &self.gotos)
    }

    /// The first link, the statements, and the labels.
    pub(crate) fn into_parts(
        self,
    ) -> (
        Link<'t>,
        Vec<Statement<'t, 'a, A>, &'a A>,
        Labels<'t, 'a, A>,
    )
        ensures start { link_of result.0 ≡ self.entry.start }
        ensures statements { result.1.items ≡ self.entry.statements }
        ensures labels { map (label_of (λ l. l.now)) result.2.entries ≡ self.entry.labels }
    {
        let Program {
            alloc: _,
            guards: _,
            depth: _,
            selections: _,
            loops: _,
            hole: _,
            start,
            statements,
            labels,
            gotos: _,
        } = self;
        (start, statements, labels)
    }
}
