//! A common word of two automata with letters and names left out, as long as it stays a common word.

ghost use Rattle.std.specs.Prelude.{◌≡◌, ◌+◌, ◌-◌, ◌<◌, ◌≤◌, true, false, [], ◌++◌, length, map, take, drop, All, IfOk, OnOk, IsTrue, Ok};
ghost use Rattle.std.specs.List.{list_all};
ghost use Rattle.ltl_spec.specs.Formulas.Names.{is_proposition};
ghost use Rattle.ltl_spec.specs.Tools.Limits.{stated_limits};
ghost use Rattle.ltl_spec.specs.Checking.Bounds.{HasNamesBelow};
ghost use Rattle.ltl_spec.specs.Checking.Check.{IsCommon, Violated};
ghost use Rattle.ltl_spec.specs.Words.LeastForm.{least_form};
ghost use Rattle.ltl_word.specs.LassoView.{word_with};
ghost use Rattle.ltl_check.specs.Shrunk.{AreNeeded, IsNoMore, IsShrunk};
ghost use Rattle.ltl_check.specs.VerdictView.{IsVerdictOn, letters_in};

use crate::accepting::{NAMED_LETTERS, SHRINKABLE, SHRINKING_LIMIT, accepts};
use crate::draft::Draft;
use crate::operand::{NamedBa, Operand};
use crate::product::Steps;
use ltl_models::Ba;
use ltl_sets::{PropositionSet, RowSet};
use ltl_syntax::Formula;
use ltl_word::Lasso;
use std::alloc::{AllocError, Allocator};

/// The automata whose common word is shrunk, the names that the numbers in letters stand for, and the letters at the beginning.
#[derive(Drop)]
pub(crate) struct Shrinking<'p, 'a, F: Operand, A: Allocator> {
    pub(crate) first: &'p F,
    pub(crate) ba: &'p Ba<'a, A>,
    pub(crate) formula: &'p Formula<'a, A>,
    pub(crate) names: &'p [&'p str],
    pub(crate) old: Vec<PropositionSet, &'a A>,
    ghost propositions: { IsTrue (list_all is_proposition (map (λ n. n.now) names.now)) },
    ghost few: { length names.now ≤ stated_limits.propositions },
    ghost named: { HasNamesBelow (length formula.now.names) ba.now },
    ghost within: { All (All (λ i. i < length names.now)) old.items },
}

impl<'p, 'a, F: Operand, A: Allocator> Shrinking<'p, 'a, F, A> {
    /// The word of these letters.
    fn word(&self, alloc: &'a A, draft: &Draft<'_, A>) -> Result<Lasso<'a, A>, AllocError>
        requires cycles { draft.now.stem < length draft.now.letters.items }
        requires letters { IsNoMore self.now.old.items draft.now.letters.items }
        ensures { IfOk result (λ w. w ≡ word_with (map (λ n. n.now) self.now.names.now)
            (take draft.now.stem draft.now.letters.items) (drop draft.now.stem draft.now.letters.items)) }
    {
        Lasso::new(
            alloc,
            self.names,
            &draft.letters[..draft.stem],
            &draft.letters[draft.stem..],
        )
    }

    /// The word of these letters in least form.
    pub(crate) fn least(
        &self,
        alloc: &'a A,
        draft: &Draft<'_, A>,
    ) -> Result<Lasso<'a, A>, AllocError>
        requires shrunk { IsShrunk (F.automaton_of self.now.first.now) self.now.formula.now.names self.now.ba.now
            (map (λ n. n.now) self.now.names.now) self.now.old.items draft.now.letters.items draft.now.stem }
        requires needed { AreNeeded (F.automaton_of self.now.first.now) self.now.formula.now.names self.now.ba.now
            (map (λ n. n.now) self.now.names.now) self.now.old.items }
        ensures verdict { IfOk result (λ w. IsVerdictOn (F.automaton_of self.now.first.now) self.now.formula.now.names self.now.ba.now
            (Violated w)) }
        ensures short { IfOk result (λ w. letters_in w ≤ length self.now.old.items) }
        ensures form { IfOk result (λ w. w ≡ least_form (word_with (map (λ n. n.now) self.now.names.now)
            (take draft.now.stem draft.now.letters.items) (drop draft.now.stem draft.now.letters.items))) }
    {
        let word = self.word(alloc, draft)?;
        word.invariant();
        word.least(alloc)
    }

    /// Whether both automata are found to accept the word.
    fn share(
        &self,
        alloc: &'a A,
        word: &Lasso<'_, A>,
        looks: &mut Steps,
    ) -> Result<bool, AllocError>
        requires { looks.old.count ≤ SHRINKING_LIMIT }
        ensures common { result ≡ Ok true
            → IsCommon (F.automaton_of self.now.first.now) self.now.formula.now.names self.now.ba.now word.now }
        ensures most { looks.new.count ≤ SHRINKING_LIMIT }
    {
        self.ba.invariant();
        let second = NamedBa::new(self.ba, self.formula);
        if !accepts(alloc, &second, word, looks)? {
            return Ok(false);
        }
        accepts(alloc, self.first, word, looks)
    }

    /// Puts the candidate in place of the word, if both automata are found to accept it.
    fn put(
        &self,
        alloc: &'a A,
        draft: &mut Draft<'a, A>,
        candidate: Draft<'a, A>,
        looks: &mut Steps,
    ) -> Result<bool, AllocError>
        requires shrunk { IsShrunk (F.automaton_of self.now.first.now) self.now.formula.now.names self.now.ba.now
            (map (λ n. n.now) self.now.names.now) self.now.old.items draft.old.letters.items draft.old.stem }
        requires candidate { IsNoMore self.now.old.items candidate.letters.items }
        requires few { looks.old.count ≤ SHRINKING_LIMIT }
        ensures shrunk { OnOk result (IsShrunk (F.automaton_of self.now.first.now) self.now.formula.now.names self.now.ba.now
            (map (λ n. n.now) self.now.names.now) self.now.old.items draft.new.letters.items draft.new.stem) }
        ensures put { result ≡ Ok true → draft.new.letters.items ≡ candidate.entry.letters.items }
        ensures kept { result ≡ Ok false → draft.new.letters.items ≡ draft.old.letters.items }
        ensures most { looks.new.count ≤ SHRINKING_LIMIT }
    {
        if candidate.stem >= candidate.letters.len() {
            return Ok(false);
        }
        let word = self.word(alloc, &candidate)?;
        if !self.share(alloc, &word, looks)? {
            return Ok(false);
        }
        *draft = candidate;
        Ok(true)
    }

    /// Puts the letter before in place of the letter at `at`, if both automata accept the word.
    fn repeat_at(
        &self,
        alloc: &'a A,
        draft: &mut Draft<'a, A>,
        at: usize,
        looks: &mut Steps,
    ) -> Result<(), AllocError>
        requires shrunk { IsShrunk (F.automaton_of self.now.first.now) self.now.formula.now.names self.now.ba.now
            (map (λ n. n.now) self.now.names.now) self.now.old.items draft.old.letters.items draft.old.stem }
        requires few { looks.old.count ≤ SHRINKING_LIMIT }
        requires inside { (0 < at) × (at < length draft.old.letters.items) }
        ensures shrunk { OnOk result (IsShrunk (F.automaton_of self.now.first.now) self.now.formula.now.names self.now.ba.now
            (map (λ n. n.now) self.now.names.now) self.now.old.items draft.new.letters.items draft.new.stem) }
        ensures most { looks.new.count ≤ SHRINKING_LIMIT }
        ensures long { OnOk result (length draft.new.letters.items ≡ length draft.old.letters.items) }
    {
        let letter = draft.letters[at - 1];
        if draft.letters[at] == letter {
            return Ok(());
        }
        let candidate = draft.with(alloc, at, letter)?;
        self.put(alloc, draft, candidate, looks)?;
        Ok(())
    }

    /// Puts the letter before in place of each letter, wherever both automata accept the word.
    fn repeat_all(
        &self,
        alloc: &'a A,
        draft: &mut Draft<'a, A>,
        looks: &mut Steps,
    ) -> Result<(), AllocError>
        requires shrunk { IsShrunk (F.automaton_of self.now.first.now) self.now.formula.now.names self.now.ba.now
            (map (λ n. n.now) self.now.names.now) self.now.old.items draft.old.letters.items draft.old.stem }
        requires few { looks.old.count ≤ SHRINKING_LIMIT }
        ensures shrunk { OnOk result (IsShrunk (F.automaton_of self.now.first.now) self.now.formula.now.names self.now.ba.now
            (map (λ n. n.now) self.now.names.now) self.now.old.items draft.new.letters.items draft.new.stem) }
        ensures most { looks.new.count ≤ SHRINKING_LIMIT }
    {
        for at in 1..draft.letters.len() {
            self.repeat_at(alloc, draft, at, looks)?;
        }
        Ok(())
    }

    /// Leaves out the `count` letters from `at`, or fewer at the end of the stem and of the cycle, if both automata accept the rest. The result is the next
    /// position to try.
    fn leave_out_at(
        &self,
        alloc: &'a A,
        draft: &mut Draft<'a, A>,
        at: usize,
        count: usize,
        looks: &mut Steps,
    ) -> Result<usize, AllocError>
        requires shrunk { IsShrunk (F.automaton_of self.now.first.now) self.now.formula.now.names self.now.ba.now
            (map (λ n. n.now) self.now.names.now) self.now.old.items draft.old.letters.items draft.old.stem }
        requires few { looks.old.count ≤ SHRINKING_LIMIT }
        requires inside { (at < length draft.old.letters.items) × (0 < count) }
        ensures shrunk { OnOk result (IsShrunk (F.automaton_of self.now.first.now) self.now.formula.now.names self.now.ba.now
            (map (λ n. n.now) self.now.names.now) self.now.old.items draft.new.letters.items draft.new.stem) }
        ensures most { looks.new.count ≤ SHRINKING_LIMIT }
        ensures falls { IfOk result (λ next. length draft.new.letters.items - next < length draft.old.letters.items - at) }
    {
        let end = draft.end_of(at, count);
        let candidate = draft.without(alloc, at, end)?;
        if self.put(alloc, draft, candidate, looks)? {
            return Ok(at);
        }
        Ok(at + 1)
    }

    /// Leaves out `count` letters of the stem or of the cycle, or fewer at their ends, wherever both automata accept the rest.
    fn leave_out(
        &self,
        alloc: &'a A,
        draft: &mut Draft<'a, A>,
        count: usize,
        looks: &mut Steps,
    ) -> Result<(), AllocError>
        requires shrunk { IsShrunk (F.automaton_of self.now.first.now) self.now.formula.now.names self.now.ba.now
            (map (λ n. n.now) self.now.names.now) self.now.old.items draft.old.letters.items draft.old.stem }
        requires few { looks.old.count ≤ SHRINKING_LIMIT }
        requires some { 0 < count }
        ensures shrunk { OnOk result (IsShrunk (F.automaton_of self.now.first.now) self.now.formula.now.names self.now.ba.now
            (map (λ n. n.now) self.now.names.now) self.now.old.items draft.new.letters.items draft.new.stem) }
        ensures most { looks.new.count ≤ SHRINKING_LIMIT }
    {
        let mut at = 0usize;
        'blocks: while at < draft.letters.len() {
            at = self.leave_out_at(alloc, draft, at, count, looks)?;
        }
        Ok(())
    }

    /// Leaves out letters: half of them, a quarter, and so on to single ones.
    fn leave_out_all(
        &self,
        alloc: &'a A,
        draft: &mut Draft<'a, A>,
        looks: &mut Steps,
    ) -> Result<(), AllocError>
        requires shrunk { IsShrunk (F.automaton_of self.now.first.now) self.now.formula.now.names self.now.ba.now
            (map (λ n. n.now) self.now.names.now) self.now.old.items draft.old.letters.items draft.old.stem }
        requires few { looks.old.count ≤ SHRINKING_LIMIT }
        ensures shrunk { OnOk result (IsShrunk (F.automaton_of self.now.first.now) self.now.formula.now.names self.now.ba.now
            (map (λ n. n.now) self.now.names.now) self.now.old.items draft.new.letters.items draft.new.stem) }
        ensures most { looks.new.count ≤ SHRINKING_LIMIT }
    {
        let mut count = draft.letters.len();
        'counts: while count > 0 {
            self.leave_out(alloc, draft, count, looks)?;
            count = count / 2;
        }
        Ok(())
    }

    /// Puts the candidate in place of the word, if its least form has at most `most` letters and both automata are found to accept it.
    fn put_short(
        &self,
        alloc: &'a A,
        draft: &mut Draft<'a, A>,
        candidate: Draft<'a, A>,
        most: usize,
        looks: &mut Steps,
    ) -> Result<(), AllocError>
        requires shrunk { IsShrunk (F.automaton_of self.now.first.now) self.now.formula.now.names self.now.ba.now
            (map (λ n. n.now) self.now.names.now) self.now.old.items draft.old.letters.items draft.old.stem }
        requires few { looks.old.count ≤ SHRINKING_LIMIT }
        requires candidate { IsNoMore self.now.old.items candidate.letters.items }
        requires same { length candidate.letters.items ≡ length draft.old.letters.items }
        ensures shrunk { OnOk result (IsShrunk (F.automaton_of self.now.first.now) self.now.formula.now.names self.now.ba.now
            (map (λ n. n.now) self.now.names.now) self.now.old.items draft.new.letters.items draft.new.stem) }
        ensures most { looks.new.count ≤ SHRINKING_LIMIT }
        ensures long { OnOk result (length draft.new.letters.items ≡ length draft.old.letters.items) }
    {
        if candidate.stem >= candidate.letters.len() {
            return Ok(());
        }
        let word = self.word(alloc, &candidate)?;
        if word.least(alloc)?.len() > most {
            return Ok(());
        }
        self.put(alloc, draft, candidate, looks)?;
        Ok(())
    }

    /// Takes a name out of all letters, if both automata accept the word and its least form has at most `most` letters.
    fn take_out(
        &self,
        alloc: &'a A,
        draft: &mut Draft<'a, A>,
        p: usize,
        most: usize,
        looks: &mut Steps,
    ) -> Result<(), AllocError>
        requires shrunk { IsShrunk (F.automaton_of self.now.first.now) self.now.formula.now.names self.now.ba.now
            (map (λ n. n.now) self.now.names.now) self.now.old.items draft.old.letters.items draft.old.stem }
        requires few { looks.old.count ≤ SHRINKING_LIMIT }
        requires name { p < length self.now.names.now }
        ensures shrunk { OnOk result (IsShrunk (F.automaton_of self.now.first.now) self.now.formula.now.names self.now.ba.now
            (map (λ n. n.now) self.now.names.now) self.now.old.items draft.new.letters.items draft.new.stem) }
        ensures most { looks.new.count ≤ SHRINKING_LIMIT }
    {
        if draft.has_name(p) {
            let candidate = draft.without_name(alloc, p)?;
            self.put_short(alloc, draft, candidate, most, looks)?;
        }
        Ok(())
    }

    /// Takes each name out of the letter at `at` for which both automata accept the word and its least form has at most `most` letters.
    fn take_out_at(
        &self,
        alloc: &'a A,
        draft: &mut Draft<'a, A>,
        at: usize,
        most: usize,
        looks: &mut Steps,
    ) -> Result<(), AllocError>
        requires shrunk { IsShrunk (F.automaton_of self.now.first.now) self.now.formula.now.names self.now.ba.now
            (map (λ n. n.now) self.now.names.now) self.now.old.items draft.old.letters.items draft.old.stem }
        requires few { looks.old.count ≤ SHRINKING_LIMIT }
        requires inside { at < length draft.old.letters.items }
        ensures shrunk { OnOk result (IsShrunk (F.automaton_of self.now.first.now) self.now.formula.now.names self.now.ba.now
            (map (λ n. n.now) self.now.names.now) self.now.old.items draft.new.letters.items draft.new.stem) }
        ensures most { looks.new.count ≤ SHRINKING_LIMIT }
        ensures long { OnOk result (length draft.new.letters.items ≡ length draft.old.letters.items) }
    {
        for p in 0..self.names.len() {
            let letter = draft.letters[at];
            if !letter.holds(p) {
                continue;
            }
            let candidate = draft.with(alloc, at, letter.without(&RowSet::single(p)))?;
            self.put_short(alloc, draft, candidate, most, looks)?;
        }
        Ok(())
    }

    /// Takes names out of all letters, and then out of single ones, wherever both automata accept the word and its least form has at most `most` letters. A
    /// word with more than `NAMED_LETTERS` letters, each counted once for each name, stays as it is.
    pub(crate) fn take_out_all(
        &self,
        alloc: &'a A,
        draft: &mut Draft<'a, A>,
        most: usize,
        looks: &mut Steps,
    ) -> Result<(), AllocError>
        requires shrunk { IsShrunk (F.automaton_of self.now.first.now) self.now.formula.now.names self.now.ba.now
            (map (λ n. n.now) self.now.names.now) self.now.old.items draft.old.letters.items draft.old.stem }
        requires few { looks.old.count ≤ SHRINKING_LIMIT }
        ensures shrunk { OnOk result (IsShrunk (F.automaton_of self.now.first.now) self.now.formula.now.names self.now.ba.now
            (map (λ n. n.now) self.now.names.now) self.now.old.items draft.new.letters.items draft.new.stem) }
        ensures most { looks.new.count ≤ SHRINKING_LIMIT }
    {
        if draft.letters.len().saturating_mul(self.names.len()) > NAMED_LETTERS {
            return Ok(());
        }
        for p in 0..self.names.len() {
            self.take_out(alloc, draft, p, most, looks)?;
        }
        for at in 0..draft.letters.len() {
            self.take_out_at(alloc, draft, at, most, looks)?;
        }
        Ok(())
    }

    /// Repeats letters, so that more of them can be left out, and then leaves out letters. A word with more than `SHRINKABLE` letters stays as it is.
    pub(crate) fn shrink(
        &self,
        alloc: &'a A,
        draft: &mut Draft<'a, A>,
        looks: &mut Steps,
    ) -> Result<(), AllocError>
        requires shrunk { IsShrunk (F.automaton_of self.now.first.now) self.now.formula.now.names self.now.ba.now
            (map (λ n. n.now) self.now.names.now) self.now.old.items draft.old.letters.items draft.old.stem }
        requires few { looks.old.count ≤ SHRINKING_LIMIT }
        ensures shrunk { OnOk result (IsShrunk (F.automaton_of self.now.first.now) self.now.formula.now.names self.now.ba.now
            (map (λ n. n.now) self.now.names.now) self.now.old.items draft.new.letters.items draft.new.stem) }
        ensures most { looks.new.count ≤ SHRINKING_LIMIT }
    {
        if draft.letters.len() > SHRINKABLE {
            return Ok(());
        }
        self.repeat_all(alloc, draft, looks)?;
        self.leave_out_all(alloc, draft, looks)
    }
}
