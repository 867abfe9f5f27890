//! The propositions of a timeline, and the positions where they are true.

ghost use Rattle.std.specs.Prelude.{◌≡◌, [], length, map, fold, IfOk, OnOk};
ghost use Rattle.std.specs.List.{list_any};
ghost use Rattle.ltl_spec.specs.Collections.Lists.{with_new};
ghost use Rattle.ltl_spec.specs.Formulas.Tokens.{same_name};
ghost use Rattle.ltl_streams.specs.Printing.{Prints};
ghost use Rattle.ltl_pictures.specs.Timeline.{name_width, proposition_lines, with_names_of};
ghost use Rattle.ltl_pictures.specs.TimelineView.{AreNameRows};

use crate::lines::{put_head, put_line};
use ltl_streams::{ByteSink, Printer};
use ltl_syntax::Formula;
use ltl_word::{Bits, Lasso};
use std::alloc::{AllocError, Allocator};

/// The names of propositions, and a bit vector for each of them.
#[derive(Drop)]
pub(crate) struct Propositions<'w, 'a, A: Allocator> {
    names: Vec<&'w [u8], &'a A>,
    rows: Vec<Bits<'a, A>, &'a A>,
}

/// Whether two texts have the same bytes.
pub(crate) fn is_same(name: &[u8], other: &[u8]) -> bool
    ensures { result ≡ same_name name.now other.now }
{
    name == other
}

/// Whether the name is in the list.
fn is_listed(names: &[&[u8]], name: &[u8]) -> bool
    ensures { result ≡ list_any (same_name name.now) (map (λ n. n.now) names.now) }
{
    for k in 0..names.len() {
        let other = names[k];
        if is_same(name, other) {
            return true;
        }
    }
    false
}

/// Appends the name, unless it is in the list.
fn put_name<'w, A: Allocator>(
    names: &mut Vec<&'w [u8], &A>,
    name: &'w [u8],
) -> Result<(), AllocError>
    ensures { OnOk result (map (λ n. n.now) names.new.items ≡ with_new same_name (map (λ n. n.now) names.old.items) name.entry.now) }
{
    if is_listed(names.as_slice(), name) {
        return Ok(());
    }
    names.push(name)?;
    Ok(())
}

/// Appends each of the names that isn't in the list.
fn put_names<'w, A: Allocator>(
    names: &mut Vec<&'w [u8], &A>,
    more: &[&'w [u8]],
) -> Result<(), AllocError>
    ensures { OnOk result (map (λ n. n.now) names.new.items ≡ fold (with_new same_name) (map (λ n. n.now) names.old.items) (map (λ n. n.now) more.now)) }
{
    for i in 0..more.len() {
        put_name(names, more[i])?;
    }
    Ok(())
}

/// The names of a formula's propositions.
fn formula_names<'w, 'a, A: Allocator, B: Allocator>(
    alloc: &'a A,
    formula: &'w Formula<'_, B>,
) -> Result<Vec<&'w [u8], &'a A>, AllocError>
    ensures { IfOk result (λ names. map (λ n. n.now) names.items ≡ formula.entry.now.names) }
{
    let mut names = Vec::new(alloc);
    for p in 0..formula.name_count() {
        names.push(formula.name(p).as_bytes())?;
    }
    Ok(names)
}

/// For each name, the positions where it is true.
fn name_rows<'a, A: Allocator, C: Allocator>(
    alloc: &'a A,
    word: &Lasso<'_, C>,
    names: &[&[u8]],
) -> Result<Vec<Bits<'a, A>, &'a A>, AllocError>
    ensures { IfOk result (λ rows. AreNameRows word.now (map (λ n. n.now) names.now) rows.items) }
{
    let mut rows = Vec::new(alloc);
    for p in 0..names.len() {
        rows.push(word.row_of_name(alloc, names[p])?)?;
    }
    Ok(rows)
}

impl<'w, 'a, A: Allocator> Propositions<'w, 'a, A> {
    /// These names, followed by the names of the word that they lack.
    fn with<C: Allocator>(
        alloc: &'a A,
        mut names: Vec<&'w [u8], &'a A>,
        word: &'w Lasso<'_, C>,
    ) -> Result<Propositions<'w, 'a, A>, AllocError>
        ensures names { IfOk result (λ ps. map (λ n. n.now) ps.names.items ≡ with_names_of word.entry.now (map (λ n. n.now) names.entry.items)) }
        ensures rows { IfOk result (λ ps. AreNameRows word.entry.now (map (λ n. n.now) ps.names.items) ps.rows.items) }
    {
        let standing = word.names(alloc)?;
        put_names(&mut names, standing.as_slice())?;
        let rows = name_rows(alloc, word, names.as_slice())?;
        Ok(Propositions { names, rows })
    }
}

impl<'w, 'a, A: Allocator> Propositions<'w, 'a, A> {
    /// The propositions of the word.
    pub(crate) fn of_word<C: Allocator>(
        alloc: &'a A,
        word: &'w Lasso<'_, C>,
    ) -> Result<Propositions<'w, 'a, A>, AllocError>
        ensures names { IfOk result (λ ps. map (λ n. n.now) ps.names.items ≡ with_names_of word.entry.now []) }
        ensures rows { IfOk result (λ ps. AreNameRows word.entry.now (map (λ n. n.now) ps.names.items) ps.rows.items) }
    {
        Propositions::with(alloc, Vec::new(alloc), word)
    }

    /// The propositions of the formula, followed by those of the word that the formula lacks.
    pub(crate) fn of_both<B: Allocator, C: Allocator>(
        alloc: &'a A,
        formula: &'w Formula<'_, B>,
        word: &'w Lasso<'_, C>,
    ) -> Result<Propositions<'w, 'a, A>, AllocError>
        ensures names { IfOk result (λ ps. map (λ n. n.now) ps.names.items ≡ with_names_of word.entry.now formula.entry.now.names) }
        ensures rows { IfOk result (λ ps. AreNameRows word.entry.now (map (λ n. n.now) ps.names.items) ps.rows.items) }
    {
        Propositions::with(alloc, formula_names(alloc, formula)?, word)
    }

    /// The length of the longest name.
    pub(crate) fn width(&self) -> usize
        ensures { result ≡ name_width (map (λ n. n.now) self.now.names.items) }
    {
        let mut width = 0usize;
        for p in 0..self.names.len() {
            width = width.max(self.names[p].len());
        }
        width
    }

    /// Writes the numbers of the positions, and a line for each proposition.
    pub(crate) fn put<C: Allocator, S: ByteSink>(
        &self,
        width: usize,
        word: &Lasso<'_, C>,
        out: &mut Printer<'_, S>,
    )
        requires { AreNameRows word.now (map (λ n. n.now) self.now.names.items) self.now.rows.items }
        ensures { Prints S.state out.old out.new
            (proposition_lines width word.now (map (λ n. n.now) self.now.names.items)) }
    {
        put_head(width, word, out);
        for p in 0..self.names.len() {
            put_line(width, word, self.names[p], &self.rows[p], out);
        }
    }
}
