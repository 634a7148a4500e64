//! Tests of key_tree.
use key_tree::{KeyTree, Node};
use std::alloc::{AllocFailed, Global};
use std::test::Fail;

/// The key of this number: ascending, descending, scattered, or of a hundred numbers the same greater half.
fn key(order: u64, number: u64) -> u128 {
    match order {
        0 => u128::from(number),
        1 => u128::from(u64::MAX - number),
        2 => u128::from(number.wrapping_mul(0x9E37_79B9_7F4A_7C15)) << 64,
        _ => (u128::from(number / 100) << 64) | u128::from(number),
    }
}

/// Adds the number under this key, unless the key has a value. Returns whether it was added.
fn add(
    alloc: Global,
    tree: &mut KeyTree<u64>,
    key: u128,
    number: u64,
) -> Result<bool, AllocFailed<u64>> {
    let node = Node::new(alloc, number)?;
    let is_new = tree.get(key).is_none();
    if tree.get(key).is_none() {
        tree.insert(key, node);
    }
    Ok(is_new)
}

fn first_key(tree: &KeyTree<u64>) -> Option<u128> {
    tree.first().map(|entry| entry.0)
}

/// Removes the first value.
fn pop(tree: &mut KeyTree<u64>) -> Option<(u128, u64)> {
    let key = first_key(tree)?;
    Some((key, removed(tree, key)?))
}

fn value(tree: &KeyTree<u64>, key: u128) -> Option<u64> {
    tree.get(key).copied()
}

fn from(tree: &KeyTree<u64>, key: u128) -> Option<(u128, u64)> {
    tree.first_from(key).map(|entry| (entry.0, *entry.1))
}

fn removed(tree: &mut KeyTree<u64>, key: u128) -> Option<u64> {
    tree.remove(key).map(|node| node.into_value())
}

/// Fails with the number if this does not hold.
fn ensure(holds: bool, number: u64) -> Result<(), Fail> {
    if holds {
        Ok(())
    } else {
        Err(Fail::new(number))
    }
}

fn add_all(alloc: Global, tree: &mut KeyTree<u64>, order: u64) -> Result<(), Fail> {
    for number in 0..10000u64 {
        ensure(add(alloc, tree, key(order, number), number)?, number)?;
    }
    Ok(())
}

fn find_all(tree: &KeyTree<u64>, order: u64) -> Result<(), Fail> {
    for number in 0..10000u64 {
        ensure(value(tree, key(order, number)) == Some(number), number)?;
    }
    Ok(())
}

fn remove_thirds(tree: &mut KeyTree<u64>, order: u64) -> Result<(), Fail> {
    for third in 0..3334u64 {
        let number = 3 * third;
        ensure(removed(tree, key(order, number)) == Some(number), number)?;
        ensure(removed(tree, key(order, number)).is_none(), number)?;
    }
    Ok(())
}

fn pop_others(tree: &mut KeyTree<u64>, order: u64) -> Result<(), Fail> {
    let mut last = None;
    for _ in 0..6666u64 {
        let (first, number) = pop(tree).ok_or("too few values")?;
        let is_next = first == key(order, number) && last < Some(first);
        ensure(number % 3 != 0 && is_next, number)?;
        last = Some(first);
    }
    Ok(())
}

#[test]
fn ten_thousand_values_in_four_orders(rt: HostRuntime) -> Result<(), Fail> {
    for order in 0..4u64 {
        let mut tree = KeyTree::new();
        add_all(rt.alloc(), &mut tree, order)?;
        find_all(&tree, order)?;
        remove_thirds(&mut tree, order)?;
        pop_others(&mut tree, order)?;
        assert!(rt; tree.is_empty());
    }
    Ok(())
}

#[test]
fn a_few_values(rt: HostRuntime) -> Result<(), Fail> {
    let alloc = rt.alloc();
    let mut tree = KeyTree::new();
    assert!(rt; tree.is_empty() && pop(&mut tree).is_none());
    for (key, number) in [(50u128, 1u64), (30, 2), (u128::MAX, 3), (70, 4), (0, 5)] {
        assert!(rt; add(alloc, &mut tree, key, number)?);
    }
    assert!(rt; !add(alloc, &mut tree, 70, 6)?);
    assert!(rt; value(&tree, 70) == Some(4) && value(&tree, 71).is_none());
    assert!(rt; from(&tree, 30) == Some((30, 2)) && from(&tree, 31) == Some((50, 1)));
    assert!(rt; from(&tree, 71) == Some((u128::MAX, 3)));
    let mut node = tree.remove(50).ok_or("no value")?;
    assert!(rt; *node.value() == 1 && removed(&mut tree, 50).is_none());
    *node.value_mut() = 7;
    assert!(rt; node.into_value() == 7);
    assert!(rt; pop(&mut tree) == Some((0, 5)));
    assert!(rt; pop(&mut tree) == Some((30, 2)));
    assert!(rt; pop(&mut tree) == Some((70, 4)));
    assert!(rt; pop(&mut tree) == Some((u128::MAX, 3)));
    assert!(rt; tree.is_empty());
    Ok(())
}
