//! Reading a word.

ghost use Rattle.std.specs.Prelude.{MatchResult};
ghost use Rattle.ltl_word.specs.ReadText.{IsReadAs, IsRefusedFor};

use crate::fault::WordFault;
use crate::lasso::Lasso;
use crate::limits::TEXT_LIMIT;
use crate::name_list::gather;
use crate::scan::read_letters;
use ltl_syntax::Formula;
use std::alloc::Allocator;

impl<'a, A: Allocator> Lasso<'a, A> {
    /// Reads a word on which the formula is to be evaluated, in one pass and without recursion. The names of both count for the limit on
    /// propositions.
    pub fn read<B: Allocator>(
        alloc: &'a A,
        text: &[u8],
        formula: &Formula<'_, B>,
    ) -> Result<Lasso<'a, A>, WordFault>
        ensures { MatchResult result (IsReadAs formula.now.names text.now) (IsRefusedFor formula.now.names text.now) }
    {
        if text.len() > TEXT_LIMIT {
            return Err(WordFault::TooLong);
        }
        let word = read_letters(alloc, text)?;
        let names = gather(alloc, formula, &word)?;
        Ok(Lasso::from_written(alloc, names.as_slice(), &word)?)
    }
}
