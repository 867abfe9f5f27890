//! Tests of sets of rows and of cubes.

use ltl_sets::{Cube, Literal, RowSet};
use std::alloc::{AllocError, Global};
use std::cmp::Ordering;

const PLACES: [usize; 6] = [0, 63, 64, 127, 128, 255];

// The set of those numbers that are below the limit.
fn rows(numbers: &[usize]) -> RowSet {
    let mut set = RowSet::empty();
    for i in numbers {
        if *i < RowSet::LIMIT {
            set.insert(*i);
        }
    }
    set
}

// The join of the literals, one after the other.
fn cube(literals: &[(usize, bool)]) -> Option<Cube> {
    let mut all = Cube::empty();
    for (p, sign) in literals {
        if *p < RowSet::LIMIT {
            all = all.join(&Cube::literal(*p, *sign))?;
        }
    }
    Some(all)
}

#[test]
fn each_word_of_a_set(rt: HostRuntime) -> Result<(), AllocError> {
    for i in PLACES {
        if i >= RowSet::LIMIT {
            continue;
        }
        let one = RowSet::single(i);
        assert!(rt; one == rows(&[i]));
        assert!(rt; one != RowSet::empty());
        for j in PLACES {
            if j >= RowSet::LIMIT {
                continue;
            }
            assert_eq!(rt; one.contains(j), i == j);
            let two = one.union(&RowSet::single(j));
            assert!(rt; one.is_subset(&two) && RowSet::empty().is_subset(&one));
            assert_eq!(rt; two.is_subset(&one), i == j);
            assert_eq!(rt; two.count(), if i == j { 1 } else { 2 });
            assert!(rt; one.common(&two) == one && two.common(&one) == one);
            assert_eq!(rt; one.common(&RowSet::single(j)) == one, i == j);
            assert_eq!(rt; one.common(&RowSet::single(j)) == RowSet::empty(), i != j);
            assert_eq!(rt; one.meets(&RowSet::single(j)), i == j);
            assert!(rt; two.meets(&one) && !two.meets(&RowSet::empty()));
            assert_eq!(rt; one.without(&RowSet::single(j)) == one, i != j);
            assert_eq!(rt; two.without(&one) == RowSet::empty(), i == j);
            assert_eq!(rt; one.cmp_list(&RowSet::single(j)), i.cmp(&j));
            let members: Vec<usize> = two.iter().collect(rt.alloc())?;
            let wanted = if i == j {
                vec![in rt.alloc(); i]?
            } else {
                vec![in rt.alloc(); i.min(j), i.max(j)]?
            };
            assert!(rt; members == wanted);
        }
    }
    Ok(())
}

#[test]
fn all_numbers(rt: HostRuntime) -> Result<(), AllocError> {
    assert_eq!(rt; RowSet::all().count(), RowSet::LIMIT);
    assert_eq!(rt; RowSet::empty().count(), 0);
    assert_eq!(rt; Cube::empty().count(), 0);
    Ok(())
}

#[test]
fn each_word_of_a_cube(rt: HostRuntime) -> Result<(), AllocError> {
    for p in PLACES {
        if p >= RowSet::LIMIT {
            continue;
        }
        let positive = Cube::literal(p, true);
        let negative = Cube::literal(p, false);
        assert!(rt; positive != negative);
        assert!(rt; positive.join(&negative).is_none());
        assert_eq!(rt; positive.count() + negative.count(), 2);
        assert!(rt; positive.join(&positive) == Some(positive));
        assert!(rt; Cube::empty().implies_of(&negative) && !negative.implies_of(&positive));
        assert!(rt; positive.allows(&RowSet::single(p)) && !positive.allows(&RowSet::empty()));
        assert!(rt; !negative.allows(&RowSet::single(p)) && negative.allows(&RowSet::empty()));
        assert!(rt; positive.letter() == RowSet::single(p));
        assert!(rt; negative.letter() == RowSet::empty());
        assert_eq!(rt; positive.cmp_list(&negative), Ordering::Less);
        assert_eq!(rt; negative.cmp_list(&positive), Ordering::Greater);
        let literals: Vec<Literal> = negative.iter().collect(rt.alloc())?;
        assert!(rt;
            literals
                == vec![in rt.alloc();
                    Literal {
                        proposition: p,
                        positive: false
                    }
                ]?
        );
    }
    Ok(())
}

#[test]
fn what_two_cubes_share(rt: HostRuntime) -> Result<(), AllocError> {
    let one = cube(&[(0, true), (63, false), (64, true), (255, false)]);
    let two = cube(&[(0, false), (63, false), (64, true), (128, true)]);
    let both = cube(&[(63, false), (64, true)]);
    let (Some(one), Some(two), Some(both)) = (one, two, both) else {
        assert!(rt; false);
        return Ok(());
    };
    assert!(rt; one.common(&two) == both && two.common(&one) == both);
    assert!(rt; one.common(&one) == one);
    assert!(rt; one.common(&Cube::empty()) == Cube::empty());
    assert!(rt; both.implies_of(&one) && both.implies_of(&two));
    assert!(rt; both.letter() == RowSet::single(64) && both.forbidden() == RowSet::single(63));
    Ok(())
}

#[test]
fn literals_in_order(rt: HostRuntime) -> Result<(), AllocError> {
    let Some(all) = cube(&[
        (255, false),
        (64, true),
        (0, false),
        (63, true),
        (128, true),
    ]) else {
        assert!(rt; false);
        return Ok(());
    };
    let mut seen: Vec<(usize, bool)> = Vec::new(rt.alloc());
    for l in all.iter() {
        seen.push((l.proposition, l.positive))?;
    }
    assert!(rt;
        seen == vec![in rt.alloc();
            (0, false),
            (63, true),
            (64, true),
            (128, true),
            (255, false)
        ]?
    );
    assert!(rt; all.letter() == rows(&[63, 64, 128]));
    assert!(rt; cube(&[(200, true), (200, false)]).is_none());
    Ok(())
}

#[test]
fn lists_in_order(rt: HostRuntime) {
    assert_eq!(rt; rows(&[1, 255]).cmp_list(&rows(&[2])), Ordering::Less);
    assert_eq!(rt; rows(&[]).cmp_list(&rows(&[0])), Ordering::Less);
    assert_eq!(rt; rows(&[0]).cmp_list(&rows(&[])), Ordering::Greater);
    assert_eq!(rt;
        rows(&[0, 128]).cmp_list(&rows(&[0, 127])),
        Ordering::Greater
    );
    assert_eq!(rt; rows(&[63]).cmp_list(&rows(&[63, 64])), Ordering::Less);
    assert_eq!(rt; rows(&[7, 200]).cmp_list(&rows(&[200, 7])), Ordering::Equal);
}

// The next pseudorandom number.
fn next(state: u64) -> u64 {
    state
        .wrapping_mul(6_364_136_223_846_793_005)
        .wrapping_add(1_442_695_040_888_963_407)
}

// A few numbers below 256, as a set and as a sorted list. Most are in the low words, so that two sets often have the same beginning.
fn some_rows(alloc: Global, seed: u64) -> Result<(RowSet, Vec<usize>), AllocError> {
    let mut state = next(seed);
    let count = (state >> 61) as usize;
    let mut set = RowSet::empty();
    let mut list = Vec::new(alloc);
    for _ in 0..count {
        state = next(state);
        let wide = (state >> 56) as usize;
        let i = if wide % 2 == 0 { wide } else { wide % 6 };
        if i < RowSet::LIMIT {
            set.insert(i);
            list.push(i)?;
        }
    }
    list.sort()?;
    list.dedup();
    Ok((set, list))
}

#[test]
fn as_sorted_lists(rt: HostRuntime) -> Result<(), AllocError> {
    for seed in 0..2000u64 {
        let (set, list) = some_rows(rt.alloc(), 2 * seed)?;
        let (other, others) = some_rows(rt.alloc(), 2 * seed + 1)?;
        let members: Vec<usize> = set.iter().collect(rt.alloc())?;
        assert!(rt; members == list);
        assert_eq!(rt; set == other, list == others);
        assert_eq!(rt; set.cmp_list(&other), list.cmp(&others));
        assert_eq!(rt;
            set.is_subset(&other),
            list.iter().all(|i| others.contains(i))
        );
        let mut both = Vec::new(rt.alloc());
        both.extend_from_slice(&list)?;
        both.extend_from_slice(&others)?;
        both.sort()?;
        both.dedup();
        let union: Vec<usize> = set.union(&other).iter().collect(rt.alloc())?;
        assert!(rt; union == both);
    }
    Ok(())
}

// A cube of a few literals, and its literals as pairs of a proposition and whether it is negated. These sort as literals do.
fn some_cube(alloc: Global, seed: u64) -> Result<(Cube, Vec<(usize, bool)>), AllocError> {
    let (places, list) = some_rows(alloc, seed)?;
    let signs = next(next(seed));
    let mut all = Cube::empty();
    let mut literals = Vec::new(alloc);
    for (k, p) in list.iter().enumerate() {
        let negated = (signs >> (40 + k % 8)) % 2 == 1;
        if *p < RowSet::LIMIT && places.contains(*p) {
            if let Some(more) = all.join(&Cube::literal(*p, !negated)) {
                all = more;
                literals.push((*p, negated))?;
            }
        }
    }
    Ok((all, literals))
}

#[test]
fn as_sorted_literals(rt: HostRuntime) -> Result<(), AllocError> {
    for seed in 0..2000u64 {
        let (one, list) = some_cube(rt.alloc(), 2 * seed)?;
        let (other, others) = some_cube(rt.alloc(), 2 * seed + 1)?;
        let (letter, truths) = some_rows(rt.alloc(), seed)?;
        let mut seen = Vec::new(rt.alloc());
        for l in one.iter() {
            seen.push((l.proposition, !l.positive))?;
        }
        assert!(rt; seen == list);
        assert_eq!(rt; one == other, list == others);
        assert_eq!(rt; one.cmp_list(&other), list.cmp(&others));
        assert_eq!(rt;
            one.implies_of(&other),
            list.iter().all(|l| others.contains(l))
        );
        assert_eq!(rt;
            one.allows(&letter),
            list.iter().all(|l| truths.contains(&l.0) != l.1)
        );
        let clash = list.iter().any(|l| others.contains(&(l.0, !l.1)));
        assert_eq!(rt; one.join(&other).is_none(), clash);
        if let Some(joined) = one.join(&other) {
            let mut both = Vec::new(rt.alloc());
            both.extend_from_slice(&list)?;
            both.extend_from_slice(&others)?;
            both.sort()?;
            both.dedup();
            let mut literals = Vec::new(rt.alloc());
            for l in joined.iter() {
                literals.push((l.proposition, !l.positive))?;
            }
            assert!(rt; literals == both);
        }
    }
    Ok(())
}
