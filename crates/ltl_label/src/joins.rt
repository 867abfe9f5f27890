//! Conjunctions of two sets of cubes. Large sets are split by literals first, so that most joins that would be contradictory or duplicates are never
//! made.

ghost use Rattle.std.specs.Prelude.{◌≡◌, ◌++◌, ◌+◌, length, flat_map, filter_map, IfOk, OnOk, option_map, true, false};
ghost use Rattle.std.specs.Bool.{beq};
ghost use Rattle.std.specs.List.{filter};
ghost use Rattle.ltl_spec.specs.Collections.Sets as spec_sets;
ghost use Rattle.ltl_spec.specs.Transitions.Cubes as spec_cubes;
ghost use Rattle.ltl_label.specs.CubesView.{HasFew, SameCubes, few, joined_cubes, joins};

use crate::cubes::{CubeList, Cubes, MOST_CUBES, few, place_near, sort_dedup};
use crate::parting::parting_literals;
use ltl_sets::Cube;
use smallvec::SmallVec;
use std::alloc::{AllocError, Allocator};

/// The largest number of splits in one conjunction.
const MOST_PARTINGS: usize = 16_384;

/// The largest number of `Sides` that may wait at a time.
const MOST_WAITING: usize = 64;

/// Two sets of cubes whose conjunction is still to be made: each cube of the one is joined with each of the other.
#[derive(Drop)]
struct Sides<'a, A: Allocator> {
    left: CubeList<'a, A>,
    right: CubeList<'a, A>,
}

/// Appends the joins of a cube with each cube of a list.
fn join_one<A: Allocator>(
    joined: &mut CubeList<'_, A>,
    left: &Cube,
    right: &[Cube],
) -> Result<(), AllocError>
    ensures { OnOk result (joined.new.items ≡ joined.old.items ++ filter_map (spec_cubes.join_cubes left.now) right.now) }
{
    'right: for cube in right {
        if let Some(cube) = left.join(cube) {
            joined.push(cube)?;
        }
    }
    Ok(())
}

/// Appends the joins of each cube on the left with each one on the right. The answer is `false` if there are more than `MOST_CUBES`. At most twice as
/// many are held at a time.
fn join_each<A: Allocator>(
    joined: &mut CubeList<'_, A>,
    left: &[Cube],
    right: &[Cube],
) -> Result<bool, AllocError>
    ensures { IfOk result (λ is_few. HasFew (joined.old.items ++ joins left.now right.now) is_few joined.new.items) }
{
    'left: for cube in left {
        join_one(joined, cube, right)?;
        if joined.len() > MOST_CUBES {
            sort_dedup(joined);
            if joined.len() > MOST_CUBES {
                return Ok(false);
            }
        }
    }
    Ok(true)
}

/// Appends the cubes. The answer is `false` if there are more than `MOST_CUBES` different ones.
fn put_behind<A: Allocator>(joined: &mut CubeList<'_, A>, made: &[Cube]) -> Result<bool, AllocError>
    ensures { IfOk result (λ is_few. HasFew (joined.old.items ++ made.now) is_few joined.new.items) }
{
    joined.extend_from_slice(made)?;
    if joined.len() > 2 * MOST_CUBES {
        sort_dedup(joined);
        if joined.len() > MOST_CUBES {
            return Ok(false);
        }
    }
    Ok(true)
}

/// Appends the joins of both sides. The answer is `false` if there are too many. After earlier cubes, the joins are appended without duplicates, so
/// that the whole list seldom has to be sorted.
fn join_sides<'a, A: Allocator>(
    alloc: &'a A,
    joined: &mut CubeList<'_, A>,
    sides: &Sides<'a, A>,
) -> Result<bool, AllocError>
    ensures { IfOk result (λ is_few. HasFew (joined.old.items ++ joins sides.now.left.items sides.now.right.items) is_few joined.new.items) }
{
    if joined.is_empty() {
        return join_each(joined, sides.left.as_slice(), sides.right.as_slice());
    }
    let mut made = SmallVec::new(alloc);
    if !join_each(&mut made, sides.left.as_slice(), sides.right.as_slice())? {
        return Ok(false);
    }
    sort_dedup(&mut made);
    put_behind(joined, made.as_slice())
}

/// The cubes that have all of these literals if `all` is set, else the other cubes.
fn having<'a, A: Allocator>(
    alloc: &'a A,
    cubes: &[Cube],
    literals: &Cube,
    all: bool,
) -> Result<CubeList<'a, A>, AllocError>
    ensures { IfOk result (λ r. r.items ≡ filter (λ c. beq (spec_sets.is_subset spec_cubes.literal_cmp literals.now c) all) cubes.now) }
{
    let mut found = SmallVec::new(alloc);
    'cubes: for cube in cubes {
        if literals.implies_of(cube) == all {
            found.push(*cube)?;
        }
    }
    Ok(found)
}

/// The joins of the cubes with these literals, without those that are found among `others`. `others` is usually sorted as `cubes` is, so the search
/// begins after the last one found.
fn widened<'a, A: Allocator>(
    alloc: &'a A,
    cubes: &[Cube],
    literals: &Cube,
    others: &[Cube],
) -> Result<CubeList<'a, A>, AllocError>
    ensures { IfOk result (λ r. SameCubes (others.now ++ r.items) (others.now ++ filter_map (λ c. spec_cubes.join_cubes c literals.now) cubes.now)) }
{
    let mut made = SmallVec::new(alloc);
    let mut likely = 0usize;
    'cubes: for cube in cubes {
        if let Some(cube) = cube.join(literals) {
            match place_near(others, likely, &cube) {
                Ok(place) => likely = place.saturating_add(1),
                Err(_) => made.push(cube)?,
            }
        }
    }
    Ok(made)
}

/// For proofs: the literals of each cube are sorted.
fn cubes_rise(cubes: &[Cube])
    ensures { (c : spec_cubes.Cube) → spec_sets.Has cubes.now c → spec_sets.IsRising spec_cubes.literal_cmp c }
{
    'cubes: for cube in cubes {
        cube.invariant();
    }
}

/// A side that is split by some literals: the cubes that have all of them (`with`), the others (`without`), and the joins of the others with the
/// literals, as far as they aren't in `with` (`made`).
#[derive(Drop)]
struct Parted<'a, A: Allocator> {
    with: CubeList<'a, A>,
    without: CubeList<'a, A>,
    made: CubeList<'a, A>,
}

/// Splits the cubes by these literals.
fn side_by<'a, A: Allocator>(
    alloc: &'a A,
    cubes: &[Cube],
    literals: &Cube,
) -> Result<Parted<'a, A>, AllocError>
    ensures with { IfOk result (λ p. p.with.items ≡ filter (λ c. beq (spec_sets.is_subset spec_cubes.literal_cmp literals.now c) true) cubes.now) }
    ensures without { IfOk result (λ p. p.without.items ≡ filter (λ c. beq (spec_sets.is_subset spec_cubes.literal_cmp literals.now c) false) cubes.now) }
    ensures made { IfOk result (λ p. SameCubes (p.with.items ++ p.made.items)
        (p.with.items ++ filter_map (λ c. spec_cubes.join_cubes c literals.now) p.without.items)) }
{
    let with = having(alloc, cubes, literals, true)?;
    let without = having(alloc, cubes, literals, false)?;
    let made = widened(alloc, without.as_slice(), literals, with.as_slice())?;
    Ok(Parted {
        with,
        without,
        made,
    })
}

/// The cubes of `with` and `made`, without duplicates.
fn all_with<'a, A: Allocator>(
    alloc: &'a A,
    side: &Parted<'_, A>,
) -> Result<CubeList<'a, A>, AllocError>
    ensures { IfOk result (λ r. r.items ≡ spec_sets.set_of spec_cubes.cube_cmp (side.now.with.items ++ side.now.made.items)) }
{
    let mut all = SmallVec::from_slice(alloc, side.with.as_slice())?;
    all.extend_from_slice(side.made.as_slice())?;
    sort_dedup(&mut all);
    Ok(all)
}

/// Queues the three conjunctions that a split leaves: `without` on both sides, `made` on the left with `with` on the right, and `with` on the left
/// with `right_all`.
fn put_waiting<'a, A: Allocator>(
    waiting: &mut Vec<Sides<'a, A>, &'a A>,
    left: Parted<'a, A>,
    right: Parted<'a, A>,
    right_all: CubeList<'a, A>,
) -> Result<(), AllocError>
    ensures joins { OnOk result (SameCubes (flat_map (λ s. joins s.left.items s.right.items) waiting.new.items)
        (flat_map (λ s. joins s.left.items s.right.items) waiting.old.items ++ (joins left.entry.without.items right.entry.without.items
        ++ (joins left.entry.made.items right.entry.with.items ++ joins left.entry.with.items right_all.entry.items)))) }
    ensures three { OnOk result (length waiting.new.items ≡ length waiting.old.items + 3) }
{
    let Parted {
        with: left_with,
        without: left_without,
        made,
    } = left;
    let Parted {
        with: right_with,
        without: right_without,
        made: _,
    } = right;
    waiting.push(Sides {
        left: left_without,
        right: right_without,
    })?;
    waiting.push(Sides {
        left: made,
        right: right_with,
    })?;
    waiting.push(Sides {
        left: left_with,
        right: right_all,
    })?;
    Ok(())
}

/// Splits both sides by these literals. A cube that is joined with a cube of the other side's `with` gets the literals first, by which many cubes
/// become equal.
fn part<'a, A: Allocator>(
    alloc: &'a A,
    sides: &Sides<'a, A>,
    literals: &Cube,
    waiting: &mut Vec<Sides<'a, A>, &'a A>,
) -> Result<(), AllocError>
    ensures joins { OnOk result (SameCubes (flat_map (λ s. joins s.left.items s.right.items) waiting.new.items)
        (flat_map (λ s. joins s.left.items s.right.items) waiting.old.items ++ joins sides.now.left.items sides.now.right.items)) }
    ensures three { OnOk result (length waiting.new.items ≡ length waiting.old.items + 3) }
{
    literals.invariant();
    cubes_rise(sides.right.as_slice());
    let mut left = side_by(alloc, sides.left.as_slice(), literals)?;
    let right = side_by(alloc, sides.right.as_slice(), literals)?;
    sort_dedup(&mut left.made);
    let right_all = all_with(alloc, &right)?;
    put_waiting(waiting, left, right, right_all)
}

/// The joins of each cube on the left with each one on the right, or `None` if there are too many.
pub(crate) fn join<'a, A: Allocator>(
    alloc: &'a A,
    left: CubeList<'a, A>,
    right: CubeList<'a, A>,
) -> Result<Cubes<'a, A>, AllocError>
    ensures { IfOk result (λ r. option_map (λ v. v.items) r ≡ few (joined_cubes left.entry.items right.entry.items)) }
{
    let mut waiting = Vec::new(alloc);
    waiting.push(Sides { left, right })?;
    let mut joined = SmallVec::new(alloc);
    let mut partings = MOST_PARTINGS;
    'sides: while let Some(sides) = waiting.pop() {
        match parting_literals(sides.left.as_slice(), sides.right.as_slice()) {
            Some(literals) if 0 < partings && waiting.len() < MOST_WAITING => {
                part(alloc, &sides, &literals, &mut waiting)?;
                partings -= 1;
            }
            _ => {
                if !join_sides(alloc, &mut joined, &sides)? {
                    return Ok(None);
                }
            }
        }
    }
    sort_dedup(&mut joined);
    Ok(few(joined))
}
