//! The levels of small policies.
use super::*;
use jo_ids::Id;
use std::test::Fail;

/// A name of two letters for each of the numbers.
fn names(alloc: Global, numbers: &[u8]) -> Result<Vec<Name>, Memory> {
    let mut names = Vec::new(alloc);
    for number in numbers {
        let mut name = Name::new(alloc);
        name.append(&[b'a' + *number / 26, b'a' + *number % 26])?;
        names.push(name)?;
    }
    Ok(names)
}

fn levels(alloc: Global, numbers: &[u8], pairs: &[(u32, u32)]) -> Result<Levels, OrderFault> {
    let names = names(alloc, numbers)?;
    if names.len() < 1000 && pairs.len() < 1000 {
        Levels::build(alloc, names.as_slice(), pairs)
    } else {
        Err(OrderFault::TooMany)
    }
}

fn number_up(numbers: &mut [u8]) {
    for (number, place) in numbers.iter_mut().zip(0..100) {
        *number = place;
    }
}

fn flows<O: Order>(order: &O, a: u32, b: u32) -> bool {
    order.flows(Id::of(a), Id::of(b))
}

#[test]
fn low_flows_to_the_top(rt: HostRuntime) -> Result<(), Fail> {
    let order = levels(rt.alloc(), &[0, 1, 2], &[(1, 2), (0, 1)])?;
    assert!(rt; flows(&order, 0, 1) && flows(&order, 1, 2) && flows(&order, 0, 2));
    assert!(rt; flows(&order, 1, 1) && flows(&order, 70, 70));
    assert!(rt; !flows(&order, 1, 0) && !flows(&order, 2, 1) && !flows(&order, 2, 0));
    assert!(rt; !flows(&order, 0, 70) && !flows(&order, 70, 0));
    Ok(())
}

#[test]
fn levels_may_be_apart(rt: HostRuntime) -> Result<(), Fail> {
    let order = levels(rt.alloc(), &[0, 1, 2, 3], &[(0, 1), (0, 2), (1, 3), (2, 3)])?;
    assert!(rt; flows(&order, 0, 3) && !flows(&order, 1, 2) && !flows(&order, 2, 1));
    Ok(())
}

#[test]
fn there_are_at_most_64(rt: HostRuntime) -> Result<(), Fail> {
    let mut numbers = [0; 64];
    let mut more = [0; 65];
    let mut pairs = [(0, 0); 63];
    number_up(&mut numbers);
    number_up(&mut more);
    for (pair, place) in pairs.iter_mut().zip(0..63) {
        *pair = (place, place % 63 + 1);
    }
    let order = levels(rt.alloc(), &numbers, &pairs)?;
    assert!(rt; flows(&order, 0, 63) && !flows(&order, 63, 0) && !flows(&order, 63, 64));
    assert_eq!(rt;
        levels(rt.alloc(), &more, &pairs).err(),
        Some(OrderFault::TooMany)
    );
    Ok(())
}

#[test]
fn faults_come_in_order(rt: HostRuntime) {
    let cycle = [(2, 3), (3, 1), (1, 2), (0, 0)];
    assert_eq!(rt;
        levels(rt.alloc(), &[0, 1, 2, 3], &cycle).err(),
        Some(OrderFault::Cycle(1, 2))
    );
    assert_eq!(rt;
        levels(rt.alloc(), &[0, 1, 2], &cycle).err(),
        Some(OrderFault::Unknown(0))
    );
    assert_eq!(rt;
        levels(rt.alloc(), &[0, 1, 1], &cycle).err(),
        Some(OrderFault::TwiceNamed(2))
    );
    assert!(rt; levels(rt.alloc(), &[], &[]).is_ok());
}
