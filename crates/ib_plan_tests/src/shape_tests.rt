//! Each shape of a plan: what the tree is like behind a change.

use crate::keys::key;
use crate::trial::{Shape, Trial};
use ib_map::OutOfMemory;
use std::alloc::Global;
use std::process::Abort;
use std::test::Fail;

// The tree behind inserts of as many even keys, from 2 on.
fn grown(rt: &impl Abort, alloc: Global, count: u64) -> Result<Trial, OutOfMemory> {
    let mut trial = Trial::new(rt, alloc, 64)?;
    grow(rt, &mut trial, 0, count);
    trial.compare(rt, alloc)?;
    Ok(trial)
}

// Inserts even keys: so many are there, and so many are wanted.
fn grow(rt: &impl Abort, trial: &mut Trial, was: u64, count: u64) {
    for n in was..count {
        assert!(rt; n < 5000);
        trial.insert(rt, key(2 * n + 2), n);
    }
}

// Deletes the greatest keys of that tree: so many are there, and so many are to stay.
fn shrink(rt: &impl Abort, trial: &mut Trial, was: u64, count: u64) {
    for gone in 0..was.saturating_sub(count) {
        assert!(rt; was < 5000);
        trial.delete(rt, key(2 * (was - gone)));
    }
}

fn shape(level: u32, root: usize, free: u32) -> Shape {
    Shape { level, root, free }
}

#[test]
fn splits_and_raises(rt: HostRuntime) -> Result<(), Fail> {
    let mut trial = grown(&rt, rt.alloc(), 0)?;
    let mut was = 0;
    let table = [
        // A leaf with room, the raise of a root that is a leaf, and one of a node.
        (35, shape(0, 35, 62)),
        (36, shape(1, 2, 60)),
        // A leaf is split below a node with room.
        (53, shape(1, 2, 60)),
        (54, shape(1, 3, 59)),
        (647, shape(1, 35, 27)),
        (648, shape(2, 2, 24)),
        // A leaf and the node above it are split.
        (971, shape(2, 2, 7)),
        (972, shape(2, 3, 5)),
    ];
    for (count, wanted) in table {
        grow(&rt, &mut trial, was, count);
        trial.compare(&rt, rt.alloc())?;
        assert_eq!(rt; (count, trial.shape(&rt)), (count, wanted));
        was = count;
    }
    Ok(())
}

#[test]
fn merges_and_lifts(rt: HostRuntime) -> Result<(), Fail> {
    let mut trial = grown(&rt, rt.alloc(), 972)?;
    let mut was = 972;
    let table = [
        // The leaf stays, and is merged with the one to its left.
        (971, shape(2, 3, 5)),
        (970, shape(2, 3, 6)),
        // Two leaves are merged, and the nodes above them: the root is left with two records, and stays.
        (953, shape(2, 3, 6)),
        (952, shape(2, 2, 8)),
        // .. and is left with one, and takes its child's.
        (629, shape(2, 2, 25)),
        (628, shape(1, 34, 28)),
    ];
    for (count, wanted) in table {
        shrink(&rt, &mut trial, was, count);
        trial.compare(&rt, rt.alloc())?;
        assert_eq!(rt; (count, trial.shape(&rt)), (count, wanted));
        was = count;
    }
    Ok(())
}

#[test]
fn a_first_leaf_is_merged_with_the_one_to_its_right(rt: HostRuntime) -> Result<(), Fail> {
    let mut trial = grown(&rt, rt.alloc(), 72)?;
    trial.delete(&rt, key(2));
    assert_eq!(rt; trial.shape(&rt), shape(1, 4, 58));
    trial.delete(&rt, key(4));
    assert_eq!(rt; trial.shape(&rt), shape(1, 3, 59));
    trial.compare(&rt, rt.alloc())?;
    Ok(())
}

#[test]
fn a_leaf_beside_long_ones_stays(rt: HostRuntime) -> Result<(), Fail> {
    let mut trial = grown(&rt, rt.alloc(), 90)?;
    for number in [3, 5, 75, 77] {
        trial.insert(&rt, key(number), 0);
    }
    trial.delete(&rt, key(40));
    trial.delete(&rt, key(42));
    assert_eq!(rt; trial.shape(&rt), shape(1, 5, 57));
    trial.delete(&rt, key(44));
    assert_eq!(rt; trial.shape(&rt), shape(1, 4, 58));
    trial.compare(&rt, rt.alloc())?;
    Ok(())
}

#[test]
fn a_key_that_is_not_there_is_refused(rt: HostRuntime) -> Result<(), Fail> {
    let mut trial = grown(&rt, rt.alloc(), 72)?;
    let was = trial.shape(&rt);
    trial.delete(&rt, key(5));
    trial.insert(&rt, key(6), 1);
    assert_eq!(rt; trial.shape(&rt), was);
    trial.compare(&rt, rt.alloc())?;
    Ok(())
}
