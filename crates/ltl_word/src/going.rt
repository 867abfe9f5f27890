//! Evaluation of `U` and `V`, from the last position to the first, 64 positions at a time.

ghost use Rattle.std.specs.Prelude.{◌≡◌, ◌≢◌, ◌<◌, ◌/◌, ◌*◌, ◌+◌, length, IfOk, ℕ};
ghost use Rattle.std.specs.Option.{option_map};
ghost use Rattle.ltl_word.specs.Rows.{IsBackRow, IsBackWord, IsWordOf, is_set, left_at, right_at, turned};
ghost use Rattle.ltl_word.specs.Evaluation.{IsLong, IsUntilRow};

use crate::bits::Bits;
use crate::machine_word::{inverted, until_word, with_bit};
use std::alloc::{AllocError, Allocator};

/// The operands of `left U right`. With `negated`, the operator is `V`: the operands and the result are complemented, by duality. Without a left
/// operand it is `<>right`, or with `negated` `[]right`.
#[derive(Drop)]
pub(crate) struct Going<'r, 'a, A: Allocator> {
    pub(crate) left: Option<&'r Bits<'a, A>>,
    pub(crate) right: &'r Bits<'a, A>,
    pub(crate) negated: bool,
}

impl<'r, 'a, A: Allocator> Going<'r, 'a, A> {
    /// The bits of a machine word, complemented if `negated` is set.
    fn turned(&self, word: u64) -> u64
        ensures { (j : ℕ) → j < 64 → is_set result j ≡ turned self.now.negated (is_set word j) }
    {
        if self.negated { inverted(word) } else { word }
    }

    /// The values of the left operand at 64 positions.
    fn left_word(&self, k: usize) -> u64
        requires { IsLong (k * 64) (option_map (λ b. b.now) self.now.left) }
        ensures { IsWordOf (left_at self.now.negated (option_map (λ b. b.now) self.now.left)) (k * 64) result }
    {
        match self.left {
            None => u64::MAX,
            Some(left) => self.turned(left.word(k)),
        }
    }

    /// The values of the right operand at 64 positions.
    fn right_word(&self, k: usize) -> u64
        requires { k < length self.now.right.now }
        ensures { IsWordOf (right_at self.now.negated self.now.right.now) (k * 64) result }
    {
        self.turned(self.right.word(k))
    }

    /// The values at the last positions, which fill no whole machine word, where `later` is the value after the end.
    fn last_word(&self, count: usize, later: bool) -> u64
        requires right { count / 64 < length self.now.right.now }
        requires left { IsLong count (option_map (λ b. b.now) self.now.left) }
        ensures { IsBackWord (left_at self.now.negated (option_map (λ b. b.now) self.now.left)) (right_at self.now.negated self.now.right.now) count later
            (count / 64 * 64) result }
    {
        let left = with_bit(self.left_word(count / 64), count % 64, false);
        let right = with_bit(self.right_word(count / 64), count % 64, later);
        until_word(left, right, false)
    }

    /// The row, if `later` is the value after the last position. With `negated`, `later` is the value of the complement.
    fn pass(&self, alloc: &'a A, count: usize, later: bool) -> Result<Bits<'a, A>, AllocError>
        requires right { count / 64 < length self.now.right.now }
        requires left { IsLong count (option_map (λ b. b.now) self.now.left) }
        ensures { IfOk result (IsBackRow self.now.negated (left_at self.now.negated (option_map (λ b. b.now) self.now.left))
            (right_at self.now.negated self.now.right.now) count later) }
    {
        let mut row = Bits::all(alloc, count, false)?;
        let mut word = self.last_word(count, later);
        let mut k = count / 64;
        row.set_word(k, self.turned(word));
        'words: while k > 0 {
            k -= 1;
            word = until_word(self.left_word(k), self.right_word(k), word & 1 == 1);
            row.set_word(k, self.turned(word));
        }
        Ok(row)
    }

    /// The row. A first pass takes `false` as the value after the end. The value that it gives at the first position of the cycle is right, and is
    /// also the value after the end. If it is `true`, a second pass uses it. With `negated`, these are values of the complement.
    pub(crate) fn row(
        &self,
        alloc: &'a A,
        stem: usize,
        count: usize,
    ) -> Result<Bits<'a, A>, AllocError>
        requires cycle { stem < count }
        requires right { count / 64 < length self.now.right.now }
        requires left { IsLong count (option_map (λ b. b.now) self.now.left) }
        ensures { IfOk result (IsUntilRow stem count self.now.negated (option_map (λ b. b.now) self.now.left) self.now.right.now) }
    {
        let row = self.pass(alloc, count, false)?;
        if row.get(stem) == self.negated {
            return Ok(row);
        }
        self.pass(alloc, count, true)
    }
}
