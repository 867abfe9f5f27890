//! Numbers and sets of rows as keys of states.

use crate::worklist::Key;
use ltl_sets::RowSet;

impl Key for usize {
    ghost use Rattle.std.proofs.lemmas.Bool.Decides.{Decides-eqb};

    ghost exact = { λ x y. (Decides-eqb x y).0 };
}

impl Key for RowSet {
    ghost use Rattle.std.specs.Cmp.Lexicographic.{bytes_decides};

    ghost exact = { λ x y. (bytes_decides x y).0 };
}
