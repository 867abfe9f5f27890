//! Where links lead, and the moves of each statement.

ghost use Rattle.std.specs.Prelude.{◌≡◌, ℕ, ◌<◌, ◌≤◌, Bool, true, false, not, List, [], ◌∷◌, ◌++◌, flat_map, length, map, slice_get, slice_index_or, string_bytes, take, Option, Some, None, IfOk, IfSome, OnOk, if◌then◌else◌};
ghost use Rattle.std.specs.List.{list_all, list_any, starts_with};
ghost use Rattle.ltl_spec.specs.Collections.Lists.{first_occurrences, place_of};
ghost use Rattle.ltl_spec.specs.Formulas.Names.{is_proposition};
ghost use Rattle.ltl_spec.specs.Formulas.Tokens.{same_name};
ghost use Rattle.ltl_spec.specs.Semantics.Word.{Name};
ghost use Rattle.ltl_spec.specs.Claims.ClaimProgram as claims;
ghost use Rattle.ltl_spec.specs.Claims.ClaimMachine.{statement_at};
ghost use Rattle.ltl_spec.specs.Claims.ClaimMeaning as meaning;
ghost use Rattle.ltl_claim.specs.ClaimView.{IsClaim, made_moves, same_guard, statement_moves, steps_of};
ghost use Rattle.ltl_claim.specs.ProgramView.{HoldsGuards, first_of, guards_of, label_of, link_of, named_steps, no_statement, option_of, program_of, statement_of, step_of};
ghost use Rattle.ltl_claim.specs.ResolveView.{AreLow, AreMarks, AreNested, AreParts, AreStates, AreTables, AreWhole, EnablesBy, IsProgramOf, Joins, both_moves, labelled, marked, move_of, no_option, numbered, option_moves, otherwise_guard, same_step, wanted_before};

use crate::claim::{Claim, ClaimMove, ClaimState, GuardStep};
use crate::parser::NameSet;
use crate::program::{ClaimOption, First, Labels, Link, NamedStep, Program, Statement};
use std::alloc::{AllocError, Allocator};
use std::marker::Model;

/// Where the statements lead: the nearest `do` at or around each one, and what comes when it is over.
#[derive(Drop)]
struct Ways<'p, 't, 'a, A: Allocator> {
    statements: &'p [Statement<'t, 'a, A>],
    labels: &'p Labels<'t, 'a, A>,
    nearest: &'p [usize],
    after: &'p [usize],
}

impl<'p, 't, 'a, A: Allocator> Model for Ways<'p, 't, 'a, A> {
    ghost use Rattle.std.specs.Prelude.{map};
    ghost use Rattle.ltl_claim.specs.ProgramView.{label_of};
    ghost use Rattle.ltl_claim.specs.ResolveView.{WaysView};

    ghost Value = { WaysView };

    ghost view = { λ w. record {
      statements = w.statements.now;
      labels = map (label_of (λ l. l.now)) w.labels.now.entries;
      nearest = w.nearest.now;
      after = w.after.now;
    } };
}

/// The statement of a label, or this number.
fn labelled<A: Allocator>(labels: &Labels<'_, '_, A>, name: &[u8], end: usize) -> usize
    ensures { result ≡ labelled (map (label_of (λ l. l.now)) labels.now.entries) end name.now }
{
    labels.get(name).copied().unwrap_or(end)
}

/// The nearest `do` at or around statement i, from the numbers of those before it.
fn nearest<A: Allocator>(statements: &[Statement<'_, '_, A>], nearest: &[usize], i: usize) -> usize
    requires inside { i < length statements.now }
    requires filled { length nearest.now ≡ i }
    requires nested { IfSome (slice_index_or statements.now i no_statement).around (λ c. c < i) }
    ensures { result ≡ (if (slice_index_or statements.now i no_statement).loops then i
        else elim (slice_index_or statements.now i no_statement).around [ Some c ↦ slice_index_or nearest.now c 0 | None ↦ i ]) }
{
    let statement = &statements[i];
    if statement.loops {
        return i;
    }
    match statement.around {
        Some(j) => nearest[j],
        None => i,
    }
}

/// What comes behind the options of selection i.
fn behind<A: Allocator>(statements: &[Statement<'_, '_, A>], after: &[usize], i: usize) -> usize
    requires inside { i < length statements.now }
    requires filled { i < length after.now }
    ensures { result ≡ (if (slice_index_or statements.now i no_statement).loops then i else slice_index_or after.now i 0) }
{
    if statements[i].loops() { i } else { after[i] }
}

/// What comes behind the nearest `do`.
fn left(nearest: &[usize], after: &[usize], i: usize) -> usize
    requires filled { i < length nearest.now }
    requires low { slice_index_or nearest.now i 0 < length after.now }
    ensures { result ≡ slice_index_or after.now (slice_index_or nearest.now i 0) 0 }
{
    after[nearest[i]]
}

impl<'p, 't, 'a, A: Allocator> Ways<'p, 't, 'a, A> {
    /// The number of the closing brace.
    fn end(&self) -> usize
        ensures { result ≡ length self.now.statements }
    {
        self.statements.len()
    }

    /// Where a link in an option of this selection leads.
    fn target(&self, link: Link<'t>, around: Option<usize>) -> usize
        requires low { AreLow self.now.statements self.now.nearest self.now.after }
        requires filled { IfSome around (λ i. i < length self.now.after) }
        ensures { (P : claims.Program) → AreParts P self.now.statements self.now.labels → AreTables P self.now.nearest self.now.after
            → result ≡ meaning.leads P (link_of link.entry) around }
    {
        match (link, around) {
            (Link::Go(i), _) => i,
            (Link::Jump(name), _) => labelled(self.labels, name, self.statements.len()),
            (Link::Nothing | Link::Leave, None) => self.statements.len(),
            (Link::Nothing, Some(i)) => behind(self.statements, self.after, i),
            (Link::Leave, Some(i)) => left(self.nearest, self.after, i),
        }
    }
}

/// The tables of the nearest `do` and of what comes when a statement is over.
fn tables<'p, 't, 'a, A: Allocator>(
    alloc: &'a A,
    statements: &'p [Statement<'t, 'a, A>],
    labels: &'p Labels<'t, 'a, A>,
) -> Result<(Vec<usize, &'a A>, Vec<usize, &'a A>), AllocError>
    requires { AreNested statements.now }
    ensures low { IfOk result (λ t. AreLow statements.entry.now t.0.items t.1.items) }
    ensures long { IfOk result (λ t. length t.1.items ≡ length statements.entry.now) }
    ensures tables { IfOk result (λ t. (P : claims.Program) → AreParts P statements.entry.now (map (label_of (λ l. l.now)) labels.entry.now.entries)
        → AreTables P t.0.items t.1.items) }
{
    let mut nearest_ones = Vec::with_capacity(alloc, statements.len())?;
    let mut after = Vec::with_capacity(alloc, statements.len())?;
    'statements: for i in 0..statements.len() {
        let ways = Ways {
            statements,
            labels,
            nearest: nearest_ones.as_slice(),
            after: after.as_slice(),
        };
        let statement = &statements[i];
        let behind = ways.target(statement.next, statement.around);
        let one = nearest(statements, nearest_ones.as_slice(), i);
        after.push(behind)?;
        nearest_ones.push(one)?;
    }
    Ok((nearest_ones, after))
}

/// The place of the name, or the number of names if it isn't there.
fn place_in<A: Allocator>(names: &NameSet<'_, '_, A>, name: &[u8]) -> usize
    ensures { result ≡ place_of same_name name.now (map (λ k. k.now) names.now.keys) }
{
    names.get_index_of(name).unwrap_or(names.len())
}

/// The step with a number in place of a name.
fn numbered<A: Allocator>(names: &NameSet<'_, '_, A>, step: NamedStep<'_>) -> GuardStep
    ensures { result ≡ numbered (map (λ k. k.now) names.now.keys) (step_of step.entry) }
{
    match step {
        NamedStep::Constant(value) => GuardStep::Constant(value),
        NamedStep::Named(name) => GuardStep::Name(place_in(names, name)),
        NamedStep::Not => GuardStep::Not,
        NamedStep::And => GuardStep::And,
        NamedStep::Or => GuardStep::Or,
    }
}

/// Appends the steps with numbers in place of names.
fn put_steps<'a, A: Allocator>(
    names: &NameSet<'_, 'a, A>,
    steps: &[NamedStep<'_>],
    guard: &mut Vec<GuardStep, &'a A>,
) -> Result<(), AllocError>
    ensures { OnOk result (guard.new.items ≡ guard.old.items ++ map (numbered (map (λ k. k.now) names.now.keys)) (map step_of steps.now)) }
{
    'steps: for i in 0..steps.len() {
        guard.push(numbered(names, steps[i]))?;
    }
    Ok(())
}

/// How many operands are wanted before a step, if so many are wanted behind it.
fn wanted_before(step: NamedStep<'_>, wanted: usize) -> usize
    requires some { 0 < wanted }
    requires few { wanted < 9_223_372_036_854_775_808 }
    ensures { result ≡ wanted_before (step_of step.entry) wanted }
{
    match step {
        NamedStep::Constant(_) | NamedStep::Named(_) => wanted - 1,
        NamedStep::Not => wanted,
        NamedStep::And | NamedStep::Or => wanted + 1,
    }
}

/// The steps of both guards of an `atomic`: where the second one begins.
fn middle(steps: &[NamedStep<'_>]) -> usize
    ensures within { result ≤ length steps.now }
    ensures exact { (g h : claims.Guard) → map step_of steps.now ≡ named_steps g ++ named_steps h → result ≡ length (named_steps g) }
{
    let mut wanted = 1usize;
    let mut at = steps.len();
    'steps: while wanted > 0 && at > 0 {
        at -= 1;
        wanted = wanted_before(steps[at], wanted);
    }
    at
}

fn is_same(one: NamedStep<'_>, two: NamedStep<'_>) -> bool
    ensures { result ≡ same_step (step_of one.entry) (step_of two.entry) }
{
    match (one, two) {
        (NamedStep::Constant(a), NamedStep::Constant(b)) => a == b,
        (NamedStep::Named(a), NamedStep::Named(b)) => a == b,
        (NamedStep::Not, NamedStep::Not)
        | (NamedStep::And, NamedStep::And)
        | (NamedStep::Or, NamedStep::Or) => true,
        _ => false,
    }
}

/// Whether the second list begins with the first one.
fn begins_with(first: &[NamedStep<'_>], second: &[NamedStep<'_>]) -> bool
    requires { length first.now ≤ length second.now }
    ensures same { result ≡ true → map step_of first.now ≡ take (length first.now) (map step_of second.now) }
    ensures other { map step_of first.now ≡ take (length first.now) (map step_of second.now) → result ≡ true }
{
    'steps: for i in 0..first.len() {
        if !is_same(first[i], second[i]) {
            return false;
        }
    }
    true
}

/// Whether the second guard is the negation of the first one.
fn negates(first: &[NamedStep<'_>], second: &[NamedStep<'_>]) -> bool
    requires { length first.now < 9_223_372_036_854_775_808 }
    ensures { (g h : claims.Guard) → map step_of first.now ≡ named_steps g → map step_of second.now ≡ named_steps h
        → result ≡ same_guard h (claims.Not g) }
{
    if second.len() != first.len() + 1 {
        return false;
    }
    if !is_same(second[first.len()], NamedStep::Not) {
        return false;
    }
    begins_with(first, second)
}

/// A move under the guards one after the other, and then these steps.
fn one<'a, A: Allocator>(
    alloc: &'a A,
    names: &NameSet<'_, 'a, A>,
    guard: &[NamedStep<'_>],
    steps: &[GuardStep],
    target: usize,
) -> Result<ClaimMove<'a, A>, AllocError>
    ensures { IfOk result (λ m. m ≡ record {
      steps = map (numbered (map (λ k. k.now) names.now.keys)) (map step_of guard.now) ++ steps.now;
      target = target;
    }) }
{
    let mut made = Vec::new(alloc);
    put_steps(names, guard, &mut made)?;
    made.extend_from_slice(steps)?;
    Ok(ClaimMove {
        guard: made,
        target,
    })
}

/// Appends the steps of the guard under which an option can be taken. An `else` has none.
fn put_enabled<'a, A: Allocator>(
    names: &NameSet<'_, 'a, A>,
    option: &ClaimOption<'_, 'a, A>,
    made: &mut Vec<GuardStep, &'a A>,
) -> Result<bool, AllocError>
    ensures { IfOk result (λ some. (P : claims.Program)
        → EnablesBy P (map (λ k. k.now) names.now.keys) (option_of option.now).first made.old.items some made.new.items) }
{
    let guards = option.guards.as_slice();
    match option.first {
        First::Test => put_steps(names, guards, made)?,
        First::Both => put_steps(names, &guards[..middle(guards)], made)?,
        First::Check | First::Leaps(_) => made.push(GuardStep::Constant(true))?,
        First::Otherwise => return Ok(false),
    }
    Ok(true)
}

/// Appends the steps of the guard of one option more, joined by `or` to those before it, if there are some. Returns whether there are some now.
fn put_alternative<'a, A: Allocator>(
    names: &NameSet<'_, 'a, A>,
    option: &ClaimOption<'_, 'a, A>,
    some: bool,
    made: &mut Vec<GuardStep, &'a A>,
) -> Result<bool, AllocError>
    ensures { IfOk result (λ now. (P : claims.Program) (gs : List claims.Guard) → Joins (map (λ k. k.now) names.now.keys) gs some made.old.items
        → Joins (map (λ k. k.now) names.now.keys) (gs ++ meaning.enabled P (option_of option.now).first) now made.new.items) }
{
    if !put_enabled(names, option, made)? {
        return Ok(some);
    }
    if !some {
        return Ok(true);
    }
    made.push(GuardStep::Or)?;
    Ok(true)
}

/// The guard under which an `else` beside these options can be taken.
fn otherwise<'a, A: Allocator>(
    alloc: &'a A,
    names: &NameSet<'_, 'a, A>,
    options: &[ClaimOption<'_, 'a, A>],
) -> Result<Vec<GuardStep, &'a A>, AllocError>
    ensures { IfOk result (λ made. (P : claims.Program)
        → made.items ≡ steps_of (map (λ k. k.now) names.now.keys) (otherwise_guard P (map option_of options.now))) }
{
    let mut made = Vec::new(alloc);
    let mut some = false;
    'options: for i in 0..options.len() {
        some = put_alternative(names, &options[i], some, &mut made)?;
    }
    if !some {
        made.push(GuardStep::Constant(false))?;
    }
    made.push(GuardStep::Not)?;
    Ok(made)
}

/// Adds the two moves of an assertion by itself.
fn add_check<'a, A: Allocator>(
    alloc: &'a A,
    names: &NameSet<'_, 'a, A>,
    guards: &[NamedStep<'_>],
    target: usize,
    end: usize,
    moves: &mut Vec<ClaimMove<'a, A>, &'a A>,
) -> Result<(), AllocError>
    ensures { OnOk result ((g : claims.Guard) → map step_of guards.now ≡ named_steps g
        → moves.new.items ≡ moves.old.items ++ move_of (map (λ k. k.now) names.now.keys) (g, target)
        ∷ move_of (map (λ k. k.now) names.now.keys) (claims.Not g, end) ∷ []) }
{
    moves.push(one(alloc, names, guards, &[], target)?)?;
    moves.push(one(alloc, names, guards, &[GuardStep::Not], end)?)?;
    Ok(())
}

/// Adds the moves of an assertion behind its guard.
fn add_both<'a, A: Allocator>(
    alloc: &'a A,
    names: &NameSet<'_, 'a, A>,
    guards: &[NamedStep<'_>],
    target: usize,
    end: usize,
    moves: &mut Vec<ClaimMove<'a, A>, &'a A>,
) -> Result<(), AllocError>
    ensures { OnOk result ((g h : claims.Guard) → map step_of guards.now ≡ named_steps g ++ named_steps h
        → moves.new.items ≡ moves.old.items ++ map (move_of (map (λ k. k.now) names.now.keys)) (both_moves g h target end)) }
{
    let middle = middle(guards);
    if negates(&guards[..middle], &guards[middle..]) {
        moves.push(one(alloc, names, &guards[..middle], &[], end)?)?;
    } else {
        moves.push(one(alloc, names, guards, &[GuardStep::And], target)?)?;
        moves.push(one(alloc, names, guards, &[GuardStep::Not, GuardStep::And], end)?)?;
    }
    Ok(())
}

/// The parts of a claim from which moves are made.
#[derive(Drop)]
struct Moves<'p, 't, 'a, A: Allocator> {
    alloc: &'a A,
    names: &'p NameSet<'t, 'a, A>,
    ways: Ways<'p, 't, 'a, A>,
}

impl<'p, 't, 'a, A: Allocator> Model for Moves<'p, 't, 'a, A> {
    ghost use Rattle.std.specs.Prelude.{map};
    ghost use Rattle.ltl_claim.specs.ResolveView.{MovesView};

    ghost Value = { MovesView };

    ghost view = { λ m. record { names = map (λ k. k.now) m.names.now.keys; ways = m.ways } };
}

impl<'p, 't, 'a, A: Allocator> Moves<'p, 't, 'a, A> {
    /// Adds the moves of an option of statement i.
    fn add(
        &self,
        i: usize,
        options: &[ClaimOption<'t, 'a, A>],
        j: usize,
        moves: &mut Vec<ClaimMove<'a, A>, &'a A>,
    ) -> Result<(), AllocError>
        requires whole { AreWhole self.now.ways }
        requires inside { i < length self.now.ways.statements }
        requires there { j < length options.now }
        ensures { OnOk result ((P : claims.Program) → IsProgramOf P self.now.ways → (statement_at P i).options ≡ map option_of options.now
            → moves.new.items ≡ moves.old.items ++ map (move_of self.now.names) (option_moves P i (option_of (slice_index_or options.now j no_option)))) }
    {
        let option = &options[j];
        let end = self.ways.end();
        let target = self.ways.target(option.next, Some(i));
        let guards = option.guards.as_slice();
        match option.first {
            First::Test => moves.push(one(self.alloc, self.names, guards, &[], target)?)?,
            First::Check => add_check(self.alloc, self.names, guards, target, end, moves)?,
            First::Both => add_both(self.alloc, self.names, guards, target, end, moves)?,
            First::Otherwise => moves.push(ClaimMove {
                guard: otherwise(self.alloc, self.names, options)?,
                target,
            })?,
            First::Leaps(link) => moves.push(one(
                self.alloc,
                self.names,
                &[],
                &[GuardStep::Constant(true)],
                self.ways.target(link, Some(i)),
            )?)?,
        }
        Ok(())
    }

    /// The moves of statement i, which has these options.
    fn moves(
        &self,
        alloc: &'a A,
        i: usize,
        options: &[ClaimOption<'t, 'a, A>],
    ) -> Result<Vec<ClaimMove<'a, A>, &'a A>, AllocError>
        requires whole { AreWhole self.now.ways }
        requires inside { i < length self.now.ways.statements }
        ensures { IfOk result (λ moves. (P : claims.Program) → IsProgramOf P self.now.ways → (statement_at P i).options ≡ map option_of options.now
            → moves.items ≡ map (move_of self.now.names) (statement_moves P i)) }
    {
        let mut moves = Vec::new(alloc);
        'options: for j in 0..options.len() {
            self.add(i, options, j, &mut moves)?;
        }
        Ok(moves)
    }

    /// The states of these statements, with their marks.
    fn states(
        &self,
        alloc: &'a A,
        statements: &[Statement<'t, 'a, A>],
        marks: &[bool],
    ) -> Result<Vec<ClaimState<'a, A>, &'a A>, AllocError>
        requires whole { AreWhole self.now.ways }
        requires same { statements.now ≡ self.now.ways.statements }
        requires marked { length marks.now ≡ length statements.now }
        ensures { IfOk result (λ states. (P : claims.Program) → IsProgramOf P self.now.ways
            → AreStates P self.now.names marks.now (length marks.now) states.items) }
    {
        let mut states = Vec::with_capacity(alloc, marks.len())?;
        'statements: for i in 0..marks.len() {
            let statement = &statements[i];
            let moves = self.moves(alloc, i, statement.options.as_slice())?;
            states.push(ClaimState {
                accepting: marks[i],
                moves,
            })?;
        }
        Ok(states)
    }
}

/// Marks the statement of a label that begins with `accept`.
fn mark(name: &[u8], i: usize, marks: &mut [bool])
    ensures { marks.new ≡ marked (record { name = name.now; statement = i }) marks.old }
{
    if i < marks.len() && name.starts_with(b"accept") {
        marks[i] = true;
    }
}

/// Marks the statement of a label, if it begins with `accept`.
fn mark_label<'a, A: Allocator>(labels: &Labels<'_, 'a, A>, i: usize, marks: &mut Vec<bool, &'a A>)
    ensures { IfSome (slice_get labels.now.entries i) (λ e. marks.new.items ≡ marked (label_of (λ l. l.now) e) marks.old.items) }
{
    if let Some((name, statement)) = labels.get_index(i) {
        mark(name, *statement, marks.as_mut_slice());
    }
}

/// For each of so many statements, whether it accepts.
fn accepting<'a, A: Allocator>(
    alloc: &'a A,
    labels: &Labels<'_, 'a, A>,
    count: usize,
) -> Result<Vec<bool, &'a A>, AllocError>
    ensures { IfOk result (λ marks. AreMarks (map (label_of (λ l. l.now)) labels.now.entries) count marks.items) }
{
    let mut marks = Vec::with_capacity(alloc, count)?;
    marks.resize(count, false)?;
    'labels: for i in 0..labels.len() {
        mark_label(labels, i, &mut marks);
    }
    Ok(marks)
}

fn owned_name<'a, A: Allocator>(alloc: &'a A, name: &[u8]) -> Result<String<&'a A>, AllocError>
    requires { is_proposition name.now ≡ true }
    ensures { IfOk result (λ owned. string_bytes owned ≡ name.now) }
{
    match str::from_utf8(name) {
        Ok(name) => String::from_str(alloc, name),
        Err(_) => unreachable!(),
    }
}

/// Copies of the names.
fn owned_names<'a, A: Allocator>(
    alloc: &'a A,
    names: &NameSet<'_, 'a, A>,
) -> Result<Vec<String<&'a A>, &'a A>, AllocError>
    requires { list_all is_proposition (map (λ k. k.now) names.now.keys) ≡ true }
    ensures { IfOk result (λ owned. map string_bytes owned.items ≡ map (λ k. k.now) names.now.keys) }
{
    let mut owned = Vec::with_capacity(alloc, names.len())?;
    for name in names.iter() {
        owned.push(owned_name(alloc, name)?)?;
    }
    Ok(owned)
}

/// The claim of a program.
pub(crate) fn claim_of<'t, 'a, A: Allocator>(
    alloc: &'a A,
    program: Program<'t, 'a, A>,
    names: &NameSet<'t, 'a, A>,
) -> Result<Claim<'a, A>, AllocError>
    requires nested { AreNested program.statements }
    requires proper { list_all is_proposition (map (λ k. k.now) names.now.keys) ≡ true }
    ensures { IfOk result (λ c. (all : List Name) → map (λ k. k.now) names.now.keys ≡ first_occurrences same_name all
        → IsClaim (program_of all program.entry) c) }
{
    let (start, statements, labels) = program.into_parts();
    let (nearest, after) = tables(alloc, statements.as_slice(), &labels)?;
    let marks = accepting(alloc, &labels, statements.len())?;
    let ways = Ways {
        statements: statements.as_slice(),
        labels: &labels,
        nearest: nearest.as_slice(),
        after: after.as_slice(),
    };
    let start = ways.target(start, None);
    let moves = Moves { alloc, names, ways };
    let states = moves.states(alloc, statements.as_slice(), marks.as_slice())?;
    Ok(Claim {
        names: owned_names(alloc, names)?,
        start,
        states,
    })
}
