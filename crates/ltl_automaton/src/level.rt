//! The step of degeneralization: the level to which an edge leads.

ghost use Rattle.std.specs.Prelude.{◌≡◌};
ghost use Rattle.ltl_spec.specs.Construction.Levels as levels_of;

use ltl_sets::RowSet;

/// The level after an edge with these marks. Levels are 0 to `sets`; level `sets` counts as level 0 does. From there the level goes up by one as
/// long as the marks hold the set of that number.
pub fn next_level(sets: usize, marks: &RowSet, level: usize) -> usize
    ensures { result ≡ levels_of.next_level sets marks.now level }
{
    let mut reached = if level == sets { 0 } else { level };
    'climb: while reached < sets && marks.holds(reached) {
        reached += 1;
    }
    reached
}
