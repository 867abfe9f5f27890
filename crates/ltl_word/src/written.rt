//! The letters of a word as they are written.

ghost use Rattle.std.specs.Prelude.{◌≡◌, ℕ, List, [], ◌∷◌, ◌++◌, false, true, map, OnOk, IfOk};
ghost use Rattle.ltl_spec.specs.Words.LassoMachine as machine;
ghost use Rattle.ltl_word.specs.WrittenView.{WrittenView, after};
ghost use Rattle.ltl_word.specs.declared.place.WordPlace.TheVariants.{AfterLetter};

use smallvec::SmallVec;
use std::alloc::{AllocError, Allocator};
use std::marker::Model;

/// The names of a letter in the order of the text, with repetitions. Up to 4 are stored without an allocation.
pub(crate) type Letter<'t, 'a, A> = SmallVec<&'t [u8], 4, &'a A>;

/// A list of letters.
pub(crate) type Letters<'t, 'a, A> = Vec<Letter<'t, 'a, A>, &'a A>;

/// A word as far as it was read: whether the cycle has begun, the letters of the stem and of the cycle, and the names of the open letter.
#[derive(Drop)]
pub(crate) struct Written<'t, 'a, A: Allocator> {
    alloc: &'a A,
    pub(crate) in_cycle: bool,
    pub(crate) stem: Letters<'t, 'a, A>,
    pub(crate) cycle: Letters<'t, 'a, A>,
    pub(crate) letter: Letter<'t, 'a, A>,
}

impl<'t, 'a, A: Allocator> Model for Written<'t, 'a, A> {
    ghost use Rattle.std.specs.Prelude.{map};
    ghost use Rattle.ltl_word.specs.WrittenView.{WrittenView};

    ghost Value = { WrittenView };

    ghost view = { λ w. record {
      in_cycle = w.in_cycle;
      stem = map (λ a. map (λ n. n.now) a.items) w.stem.items;
      cycle = map (λ a. map (λ n. n.now) a.items) w.cycle.items;
      letter = map (λ n. n.now) w.letter.items;
    } };
}

impl<'t, 'a, A: Allocator> Written<'t, 'a, A> {
    pub(crate) fn new(alloc: &'a A) -> Written<'t, 'a, A>
        ensures { result ≡ record { in_cycle = false; stem = []; cycle = []; letter = [] } }
    {
        Written {
            alloc,
            in_cycle: false,
            stem: Vec::new(alloc),
            cycle: Vec::new(alloc),
            letter: SmallVec::new(alloc),
        }
    }

    /// A complete word with these letters.
    pub(crate) fn of_letters(
        alloc: &'a A,
        stem: Letters<'t, 'a, A>,
        cycle: Letters<'t, 'a, A>,
    ) -> Written<'t, 'a, A>
        ensures { result ≡ record {
          in_cycle = true;
          stem = map (λ a. map (λ n. n.now) a.items) stem.entry.items;
          cycle = map (λ a. map (λ n. n.now) a.items) cycle.entry.items;
          letter = [];
        } }
    {
        Written {
            alloc,
            in_cycle: true,
            stem,
            cycle,
            letter: SmallVec::new(alloc),
        }
    }

    /// Removes the names of the open letter.
    pub(crate) fn clear(&mut self)
        ensures { self.new ≡ record self.old { letter = [] } }
    {
        self.letter.clear();
    }

    /// Adds a name to the open letter.
    pub(crate) fn push(&mut self, name: &'t [u8]) -> Result<(), AllocError>
        ensures { OnOk result (self.new ≡ record self.old { letter = self.old.letter ++ name.now ∷ [] }) }
    {
        self.letter.push(name)?;
        Ok(())
    }

    /// Begins the cycle.
    pub(crate) fn turn(&mut self)
        ensures { self.new ≡ record self.old { in_cycle = true } }
    {
        self.in_cycle = true;
    }

    /// Ends the open letter.
    pub(crate) fn close(&mut self) -> Result<(), AllocError>
        ensures { OnOk result ((text : List ℕ) (at : ℕ) → after text at AfterLetter self.new
            ≡ machine.closed self.old.in_cycle self.old.stem self.old.cycle self.old.letter) }
    {
        let letter = std::mem::replace(&mut self.letter, SmallVec::new(self.alloc));
        if self.in_cycle {
            self.cycle.push(letter)?;
        } else {
            self.stem.push(letter)?;
        }
        Ok(())
    }
}
