//! Laws of pictures. The functions do nothing; their contracts are the laws.

ghost use Rattle.std.specs.Prelude.{ℕ, List};
ghost use Rattle.ltl_spec.specs.Automata.Automaton.{Edge};
ghost use Rattle.ltl_spec.specs.Checking.Check.{MarkedAccepts};
ghost use Rattle.ltl_spec.specs.Hoa.HoaReading.{MarkedAutomaton};
ghost use Rattle.ltl_spec.specs.Semantics.Word.{Lasso};
ghost use Rattle.ltl_pictures.specs.declared.pick.Pick.{Pick};
ghost use Rattle.ltl_pictures.specs.Drawn.{AreDrawn};
ghost use Rattle.ltl_pictures.specs.RunText.{AreShown};
ghost use Rattle.ltl_pictures.specs.Runs.{IsAcceptingRun};

/// The arrows from a state represent each of its edges once, and no other edge. No two of them have the same target.
pub fn each_edge_is_drawn()
    ensures { (k : ℕ) (es : List Edge) → AreDrawn k es }
{}

/// The arrows from a state represent each of its edges once, with a run too. The edges of the run are in red and no others are, and so are their arrows and their
/// state.
pub fn each_edge_is_shown()
    ensures { (picks : List Pick) (A : MarkedAutomaton) (k : ℕ) → AreShown picks A k }
{}

/// An automaton with an accepting run on a word accepts the word.
pub fn accepting_run_accepts()
    ensures { (A : MarkedAutomaton) (w : Lasso) (run : List Pick) → IsAcceptingRun A w run → MarkedAccepts A w }
{}
