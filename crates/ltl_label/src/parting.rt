//! The choice of the literals that split two sets of cubes: a literal that a sample suggests, and the literals that all cubes with it share. The
//! choice affects the time alone, not the result.

ghost use Rattle.std.specs.Prelude.{◌<◌};

use ltl_sets::{Cube, RowSet};

/// The number of cubes in the sample of a set.
const SAMPLE: u32 = 8;

/// Sets with at most this many pairs of cubes aren't split.
const FEW_PAIRS: usize = 64;

/// The stride of the sample. It is a large prime, so that the sample follows no regular order of the list.
const STRIDE: usize = 20_736_203;

/// For each literal, the number of sampled cubes that have it.
#[derive(Drop)]
struct Counts {
    positive: [u32; RowSet::LIMIT],
    negative: [u32; RowSet::LIMIT],
}

/// The numbers of sampled cubes that have a literal, that have its negation, and that have neither.
#[derive(Clone, Copy)]
struct Share {
    with: u32,
    against: u32,
    neither: u32,
}

impl Counts {
    fn of(cubes: &[Cube]) -> Counts {
        let mut counts = Counts {
            positive: [0; RowSet::LIMIT],
            negative: [0; RowSet::LIMIT],
        };
        for turn in 0..SAMPLE as usize {
            if let Some(cube) = cubes.get(turn * STRIDE % cubes.len().max(1)) {
                counts.add(cube);
            }
        }
        counts
    }

    fn add(&mut self, cube: &Cube) {
        for literal in cube.iter() {
            let counts = if literal.positive {
                &mut self.positive
            } else {
                &mut self.negative
            };
            if let Some(count) = counts.get_mut(literal.proposition) {
                *count = count.saturating_add(1);
            }
        }
    }

    /// Whether a sampled cube has a literal of the proposition.
    fn names(&self, proposition: usize) -> bool
        requires { proposition < RowSet.LIMIT }
    {
        0 < self.positive[proposition] || 0 < self.negative[proposition]
    }

    fn share(&self, proposition: usize, sign: bool) -> Share
        requires { proposition < RowSet.LIMIT }
    {
        let positive = self.positive[proposition];
        let negative = self.negative[proposition];
        let (with, against) = if sign {
            (positive, negative)
        } else {
            (negative, positive)
        };
        Share {
            with,
            against,
            neither: SAMPLE.saturating_sub(with).saturating_sub(against),
        }
    }
}

/// An estimate of the pairs of sampled cubes that are left after a split by a literal. It takes it that cubes which can become equal do so.
fn pairs_left(left: Share, right: Share) -> u32 {
    let with = left.with.saturating_mul(right.with.max(right.neither));
    let made = left
        .neither
        .saturating_sub(left.with)
        .saturating_mul(right.with);
    let without = SAMPLE
        .saturating_sub(left.with)
        .saturating_mul(SAMPLE.saturating_sub(right.with));
    with.saturating_add(made).saturating_add(without)
}

/// The literal that promises the fewest pairs after a split, or `None` if no literal saves any. A proposition that is missing in the sample of one
/// side is skipped, since its literals never help.
fn best_literal(left: &[Cube], right: &[Cube]) -> Option<Cube> {
    let (left, right) = (Counts::of(left), Counts::of(right));
    let mut least = SAMPLE * SAMPLE;
    let mut best = None;
    for proposition in 0..RowSet::LIMIT {
        if !left.names(proposition) || !right.names(proposition) {
            continue;
        }
        for sign in [true, false] {
            let pairs = pairs_left(
                left.share(proposition, sign),
                right.share(proposition, sign),
            );
            if pairs < least {
                least = pairs;
                best = Some(Cube::literal(proposition, sign));
            }
        }
    }
    best
}

/// The literals that all cubes with these literals share, or `None` if there is no such cube.
fn shared(cubes: &[Cube], literals: &Cube) -> Option<Cube> {
    let mut shared: Option<Cube> = None;
    for cube in cubes {
        if literals.implies_of(cube) {
            shared = match shared {
                Some(before) => Some(before.common(cube)),
                None => Some(*cube),
            };
        }
    }
    shared
}

/// The literals by which the two sets are to be split, or `None` if a split wouldn't help. To the best literal come all literals that the cubes with
/// it on one side share. A join with one of these cubes has them all, so many cubes of the other side become equal at once.
pub(crate) fn parting_literals(left: &[Cube], right: &[Cube]) -> Option<Cube> {
    if left.len().min(right.len()) <= 1 || left.len().saturating_mul(right.len()) <= FEW_PAIRS {
        return None;
    }
    let best = best_literal(left, right)?;
    Some(match shared(left, &best) {
        Some(literals) => literals,
        None => shared(right, &best).unwrap_or(best),
    })
}
