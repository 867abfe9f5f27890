//! Disjunctive normal forms of the parts of a label, as sets of cubes of limited size.

ghost use Rattle.std.specs.Prelude.{◌≡◌, ◌<◌, ◌≤◌, ◌++◌, length, IfOk, IfErr, OnOk, option_map};
ghost use Rattle.ltl_spec.specs.Collections.Sets as spec_sets;
ghost use Rattle.ltl_spec.specs.Transitions.Cubes as spec_cubes;
ghost use Rattle.ltl_label.specs.CubesView.{SameCubes, both_cubes, constant_cubes, few, literal_cubes};

use crate::joins::join;
use ltl_sets::{Cube, RowSet};
use smallvec::SmallVec;
use std::alloc::{AllocError, Allocator};
use std::cmp::Ordering;

/// The largest number of cubes that a part of a label may have.
pub const MOST_CUBES: usize = 4_096;

/// A list of cubes. One cube is stored without an allocation.
pub type CubeList<'a, A> = SmallVec<Cube, 1, &'a A>;

/// The cubes of a part of a label, or `None` if the part, or one inside it, has more than `MOST_CUBES`.
pub type Cubes<'a, A> = Option<CubeList<'a, A>>;

/// The largest number of cubes that are inserted into a list one by one. More are appended and sorted.
const MOST_INSERTED: usize = 8;

/// Sorts the cubes, and removes duplicates.
pub(crate) fn sort_dedup<A: Allocator>(cubes: &mut CubeList<'_, A>)
    ensures { cubes.new.items ≡ spec_sets.set_of spec_cubes.cube_cmp cubes.old.items }
{
    cubes.sort_unstable_by(Cube::cmp_list);
    cubes.dedup();
}

/// The cubes, or `None` if they are more than `MOST_CUBES`.
pub(crate) fn few<'a, A: Allocator>(cubes: CubeList<'a, A>) -> Cubes<'a, A>
    ensures { option_map (λ v. v.items) result ≡ few cubes.entry.items }
{
    if cubes.len() > MOST_CUBES {
        None
    } else {
        Some(cubes)
    }
}

/// The cubes of a constant: the empty cube for true, and none for false.
pub(crate) fn constant<'a, A: Allocator>(
    alloc: &'a A,
    value: bool,
) -> Result<Cubes<'a, A>, AllocError>
    ensures { IfOk result (λ r. option_map (λ v. v.items) r ≡ constant_cubes value) }
{
    let cubes = if value {
        SmallVec::from_slice(alloc, &[Cube::empty()])?
    } else {
        SmallVec::new(alloc)
    };
    Ok(Some(cubes))
}

/// The cube of one literal.
pub(crate) fn literal<'a, A: Allocator>(
    alloc: &'a A,
    proposition: usize,
    sign: bool,
) -> Result<Cubes<'a, A>, AllocError>
    requires { proposition < RowSet.LIMIT }
    ensures { IfOk result (λ r. option_map (λ v. v.items) r ≡ literal_cubes proposition sign) }
{
    let cubes = SmallVec::from_slice(alloc, &[Cube::literal(proposition, sign)])?;
    Ok(Some(cubes))
}

/// The position of the cube in a sorted list, or else the one where it is to be inserted. For a list that isn't sorted, the search may miss the cube.
pub(crate) fn place_of(cubes: &[Cube], cube: &Cube) -> Result<usize, usize>
    ensures found { IfOk result (λ i. spec_sets.Has cubes.now cube.now) }
    ensures within { IfErr result (λ i. i ≤ length cubes.now) }
{
    let (mut low, mut high) = (0, cubes.len());
    'halves: while low < high {
        let middle = low + (high - low) / 2;
        match cubes[middle].cmp_list(cube) {
            Ordering::Less => low = middle + 1,
            Ordering::Equal => return Ok(middle),
            Ordering::Greater => high = middle,
        }
    }
    Err(low)
}

/// The same as `place_of`, but the position `likely` is tried first.
pub(crate) fn place_near(cubes: &[Cube], likely: usize, cube: &Cube) -> Result<usize, usize>
    ensures found { IfOk result (λ i. spec_sets.Has cubes.now cube.now) }
    ensures within { IfErr result (λ i. i ≤ length cubes.now) }
{
    if likely < cubes.len() {
        if let Ordering::Equal = cubes[likely].cmp_list(cube) {
            return Ok(likely);
        }
    }
    place_of(cubes, cube)
}

/// Inserts each cube of a short list that isn't found among the cubes.
fn insert_each<A: Allocator>(cubes: &mut CubeList<'_, A>, more: &[Cube]) -> Result<(), AllocError>
    ensures { OnOk result (SameCubes cubes.new.items (cubes.old.items ++ more.now)) }
{
    'more: for cube in more {
        match place_of(cubes.as_slice(), cube) {
            Ok(_) => {}
            Err(place) => cubes.insert(place, *cube)?,
        }
    }
    Ok(())
}

/// The cubes of both operands of a disjunction.
fn unite<'a, A: Allocator>(
    mut left: CubeList<'a, A>,
    right: &[Cube],
) -> Result<Cubes<'a, A>, AllocError>
    ensures { IfOk result (λ r. option_map (λ v. v.items) r ≡ few (spec_sets.set_of spec_cubes.cube_cmp (left.entry.items ++ right.now))) }
{
    if right.len() <= MOST_INSERTED {
        insert_each(&mut left, right)?;
    } else {
        left.extend_from_slice(right)?;
    }
    sort_dedup(&mut left);
    Ok(few(left))
}

/// The cubes of a conjunction if `meet` is set, else those of a disjunction.
pub(crate) fn both<'a, A: Allocator>(
    alloc: &'a A,
    meet: bool,
    left: Cubes<'a, A>,
    right: Cubes<'a, A>,
) -> Result<Cubes<'a, A>, AllocError>
    ensures { IfOk result (λ r. option_map (λ v. v.items) r ≡ both_cubes meet (option_map (λ v. v.items) left.entry) (option_map (λ v. v.items) right.entry)) }
{
    match (left, right) {
        (Some(left), Some(right)) => {
            if meet {
                join(alloc, left, right)
            } else {
                unite(left, right.as_slice())
            }
        }
        _ => Ok(None),
    }
}
