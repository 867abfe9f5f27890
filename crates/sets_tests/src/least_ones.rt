//! Tests of minimal elements and of columns, over sets of numbers.

use crate::items::{Different, Item};
use least::{Columns, least};
use ltl_sets::RowSet;
use std::alloc::{AllocError, Global};
use std::test::Fail;

/// The numbers of the bits that are set.
fn numbers(bits: u64) -> RowSet {
    let mut set = RowSet::empty();
    for number in 0..64usize {
        if bits >> number & 1 == 1 {
            set.insert(number);
        }
    }
    set
}

/// An item that lacks nothing.
fn needing(bits: u64) -> Item {
    Item {
        needs: numbers(bits),
        lacks: RowSet::empty(),
    }
}

/// The sets of six of twelve numbers, and the same sets with 20 added. They fill more than two blocks.
#[test]
fn those_with_more_go(rt: HostRuntime) -> Result<(), Fail> {
    let alloc = rt.alloc();
    let mut items = Vec::new(alloc);
    for bits in 0..1u64 << 12 {
        if bits.count_ones() == 6 {
            items.push(needing(bits | 1 << 20))?;
            items.push(needing(bits))?;
        }
    }
    let kept = least(&alloc, &Different, items.as_slice())?;
    assert_eq!(rt; items.len(), 2 * 924);
    assert_eq!(rt; kept.len(), 924);
    for item in &kept {
        assert!(rt; !item.needs.holds(20));
    }
    Ok(())
}

/// The sets of six of twelve numbers, and an item that needs nothing, but lacks 0. It is below the sets without 0 alone.
#[test]
fn those_that_need_what_is_lacked_stay(rt: HostRuntime) -> Result<(), Fail> {
    let alloc = rt.alloc();
    let mut items = Vec::new(alloc);
    for bits in 0..1u64 << 12 {
        if bits.count_ones() == 6 {
            items.push(needing(bits))?;
        }
    }
    items.push(Item {
        needs: RowSet::empty(),
        lacks: RowSet::single(0),
    })?;
    let kept = least(&alloc, &Different, items.as_slice())?;
    assert_eq!(rt; kept.len(), 462 + 1);
    for item in &kept {
        assert_eq!(rt; item.needs.holds(0), !(item.needs == RowSet::empty()));
    }
    Ok(())
}

/// The minimal ones of a few sets.
fn least_of(alloc: Global, sets: &[u64]) -> Result<Vec<RowSet>, AllocError> {
    let mut items = Vec::new(alloc);
    for bits in sets {
        items.push(needing(*bits))?;
    }
    let kept = least(&alloc, &Different, items.as_slice())?;
    let mut answer = Vec::new(alloc);
    for item in &kept {
        answer.push(item.needs)?;
    }
    Ok(answer)
}

#[test]
fn the_order_stays(rt: HostRuntime) -> Result<(), Fail> {
    let kept = least_of(rt.alloc(), &[6, 7, 1, 8, 6])?;
    assert!(rt; kept == vec![in rt.alloc(); numbers(6), numbers(1), numbers(8), numbers(6)]?);
    Ok(())
}

#[test]
fn of_none_and_of_one(rt: HostRuntime) -> Result<(), Fail> {
    assert!(rt; least_of(rt.alloc(), &[])?.is_empty());
    assert!(rt; least_of(rt.alloc(), &[5])? == vec![in rt.alloc(); numbers(5)]?);
    Ok(())
}

/// The columns of {1, 2} and {2, 200}.
#[test]
fn columns_of_two_sets(rt: HostRuntime) -> Result<(), Fail> {
    let alloc = rt.alloc();
    let mut second = numbers(4);
    second.insert(200);
    let columns = Columns::of(&alloc, &[numbers(6), second])?;
    assert!(rt; columns.column(0) == RowSet::empty());
    assert!(rt; columns.column(1) == RowSet::single(0));
    assert!(rt; columns.column(2) == numbers(3));
    assert!(rt; columns.column(200) == RowSet::single(1));
    assert!(rt; columns.column(1000) == RowSet::empty());
    assert!(rt; numbers(6).union(&second).is_subset(&columns.met()));
    Ok(())
}

/// The columns of 256 sets: set j has j, and 200 if j is a multiple of three.
#[test]
fn columns_of_the_most_sets(rt: HostRuntime) -> Result<(), Fail> {
    let alloc = rt.alloc();
    let mut sets = Vec::new(alloc);
    let mut thirds = RowSet::single(200);
    for j in 0..RowSet::LIMIT {
        let mut set = RowSet::single(j);
        if j % 3 == 0 {
            set.insert(200);
            thirds.insert(j);
        }
        sets.push(set)?;
    }
    assert!(rt; sets.len() <= RowSet::LIMIT);
    let columns = Columns::of(&alloc, sets.as_slice())?;
    for i in 0..RowSet::LIMIT {
        assert!(rt; i == 200 || columns.column(i) == RowSet::single(i));
    }
    assert!(rt; columns.column(200) == thirds);
    Ok(())
}
