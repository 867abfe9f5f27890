//! Tests of the allocator that refuses.

use refusing::Refusing;
use std::alloc::{AllocError, Allocator};
use std::test::Fail;

fn doubled<A: Allocator>(alloc: A, n: u8) -> Result<Vec<u8, A>, AllocError> {
    let mut v = Vec::new(alloc);
    for i in 0..n {
        v.push(i)?;
        v.push(i)?;
    }
    Ok(v)
}

#[test]
fn each_growth_refused(rt: HostRuntime) -> Result<(), Fail> {
    let mut refused = 0;
    for n in 1..100 {
        let alloc = Refusing::new(rt.alloc(), n);
        let made = doubled(&alloc, 50);
        assert_eq!(rt; made.is_err(), alloc.has_refused(), "at {n}");
        if alloc.has_refused() {
            refused = n;
        }
    }
    println!(rt; "{refused} growths")?;
    Ok(())
}
