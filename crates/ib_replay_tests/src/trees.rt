//! Logs whose entries leave a lawful tree, and logs whose last entry leaves none.

use ib_logrec::{LogFault, UnlawfulKind};
use ib_map::Key;
use ib_replay::{Replayed, replay};
use std::alloc::{AllocError, Global};
use std::test::Fail;

// A word of a page and what it is changed to: page, index, value.
type PageWrite = (u8, u8, u64);

// A change of session 1, and the words of pages that it writes. The key is that of a number, which has 8 bytes.
#[derive(Clone, Copy)]
struct Step<'a> {
    flags: u64,
    number: u64,
    key: u64,
    value: u64,
    writes: &'a [PageWrite],
}

// What the flags of a change are. Those of a change that writes several pages have a further bit.
const INSERT: u64 = 1;

const DELETE: u64 = 2;

const STRUCTURAL: u64 = 4;

// Inserts 10 with 100, and makes page 1 a node over the leaves 2, with keys below 20, and 3.
const SPLIT: Step<'static> = Step {
    flags: INSERT | STRUCTURAL,
    number: 1,
    key: 10,
    value: 100,
    writes: &[
        (0, 0, 15),
        (1, 1, 1),
        (1, 2, 2),
        (1, 7, 540),
        (1, 18, 276),
        (1, 19, 768),
        (1, 20, 24),
        (1, 23, 2),
        (1, 24, 19),
        (1, 25, 20),
        (1, 26, 8),
        (1, 27, 3),
        (2, 0, 1),
        (2, 2, 1),
        (2, 4, 3),
        (2, 7, 536),
        (2, 8, 18),
        (2, 9, 19),
        (2, 18, 276),
        (2, 19, 512),
        (2, 20, 19),
        (2, 21, 10),
        (2, 22, 8),
        (2, 23, 100),
        (3, 0, 1),
        (3, 3, 2),
        (3, 7, 532),
        (3, 8, 18),
        (3, 9, 19),
        (3, 18, 275),
        (3, 19, 256),
    ],
};

// The word behind the split.
const BEHIND: u32 = 67;

// What puts 30 with 300 into leaf 3.
const PUT_30: [PageWrite; 8] = [
    (3, 2, 1),
    (3, 7, 536),
    (3, 18, 276),
    (3, 19, 512),
    (3, 20, 19),
    (3, 21, 30),
    (3, 22, 8),
    (3, 23, 300),
];

// Inserts 30 with 300, by these writes.
fn insert_30(writes: &[PageWrite]) -> Step<'_> {
    let one_page = match writes {
        [first, ..] => writes.iter().all(|write| write.0 == first.0),
        [] => true,
    };
    Step {
        flags: if one_page {
            INSERT
        } else {
            INSERT | STRUCTURAL
        },
        number: 2,
        key: 30,
        value: 300,
        writes,
    }
}

// Adds the words of the step's entry.
fn add_step(log: &mut Vec<u64>, step: &Step<'_>) -> Result<(), AllocError> {
    let first = 1 << 32 | step.flags << 16 | step.writes.len() as u64;
    log.extend_from_slice(&[first, step.number, step.key, 8, step.value])?;
    for &(page, index, value) in step.writes {
        log.push(u64::from(page) * 160 + u64::from(index))?;
        log.push(value)?;
    }
    Ok(())
}

fn replay_steps(alloc: Global, steps: &[Step<'_>]) -> Result<Replayed, LogFault> {
    let mut log = Vec::new(alloc);
    for step in steps {
        add_step(&mut log, step)?;
    }
    if log.len() > 1000 {
        return Err(LogFault::OutOfMemory);
    }
    replay(alloc, 16, &log)
}

// What is wrong with a log of the split and this step.
fn fault_behind_split(alloc: Global, step: Step<'_>) -> Option<LogFault> {
    replay_steps(alloc, &[SPLIT, step]).err()
}

#[test]
fn a_node_over_two_leaves(rt: HostRuntime) -> Result<(), Fail> {
    let insert = insert_30(&PUT_30);
    let replayed = replay_steps(rt.alloc(), &[SPLIT, insert]).map_err(|_| "the log is lawful")?;
    assert_eq!(rt; replayed.entries.len(), 2);
    assert_eq!(rt; replayed.map.get(Key::of_number(30)), Some(300));
    let images = replayed.memory.images();
    assert_eq!(rt; images.len(), 16);
    assert_eq!(rt; images[0].word(0), 15);
    assert_eq!(rt; images[1].word(27), 3);
    assert_eq!(rt; images[2].word(23), 100);
    assert_eq!(rt; images[3].word(23), 300);
    Ok(())
}

// What takes 10 out, frees both leaves and makes page 1 a leaf without records, but for the bits of page 0.
const LOWERED: [PageWrite; 24] = [
    (1, 1, 0),
    (1, 2, 0),
    (1, 7, 532),
    (1, 18, 275),
    (1, 19, 256),
    (2, 0, 0),
    (2, 2, 0),
    (2, 4, 0),
    (2, 7, 0),
    (2, 8, 0),
    (2, 9, 0),
    (2, 18, 0),
    (2, 19, 0),
    (2, 20, 0),
    (2, 21, 0),
    (2, 22, 0),
    (2, 23, 0),
    (3, 0, 0),
    (3, 3, 0),
    (3, 7, 0),
    (3, 8, 0),
    (3, 9, 0),
    (3, 18, 0),
    (3, 19, 0),
];

// Takes 10 out, and leaves the root alone, with these bits on page 0.
fn lower(alloc: Global, bits: u64) -> Result<Option<LogFault>, AllocError> {
    let mut writes = Vec::new(alloc);
    writes.push((0, 0, bits))?;
    writes.extend_from_slice(&LOWERED)?;
    let delete = Step {
        flags: DELETE | STRUCTURAL,
        number: 2,
        key: 10,
        value: 0,
        writes: &writes,
    };
    Ok(fault_behind_split(alloc, delete))
}

#[test]
fn leaves_that_are_freed(rt: HostRuntime) -> Result<(), Fail> {
    let no_tree = Some(LogFault::Unlawful {
        place: BEHIND,
        kind: UnlawfulKind::Tree,
    });
    assert_eq!(rt; lower(rt.alloc(), 3)?, None);
    // A page that went free keeps its bit.
    assert_eq!(rt; lower(rt.alloc(), 7)?, no_tree);
    assert_eq!(rt; lower(rt.alloc(), 11)?, no_tree);
    // The root loses its own.
    assert_eq!(rt; lower(rt.alloc(), 1)?, no_tree);
    Ok(())
}

// What is wrong with the log of the split and of an insert of 30 into leaf 3 that writes these words as well.
fn fault_with(alloc: Global, others: &[PageWrite]) -> Result<Option<LogFault>, AllocError> {
    let mut writes = Vec::from_slice(alloc, others)?;
    writes.extend_from_slice(&PUT_30)?;
    writes.sort()?;
    Ok(fault_behind_split(alloc, insert_30(&writes)))
}

const NO_TREE: Option<LogFault> = Some(LogFault::Unlawful {
    place: BEHIND,
    kind: UnlawfulKind::Tree,
});

#[test]
fn last_entries_that_leave_no_tree(rt: HostRuntime) -> Result<(), Fail> {
    let rows: [&[PageWrite]; 16] = [
        // The node is its own child, in place of the first one and of the last one.
        &[(1, 23, 1)],
        &[(1, 27, 1)],
        // Leaf 2 is met twice.
        &[(1, 27, 2)],
        // The leaves are linked in a circle.
        &[(2, 3, 3), (3, 4, 2)],
        // They are linked one way alone: by leaf 2, and by leaf 3.
        &[(3, 3, 0)],
        &[(2, 4, 0)],
        // The node's first key is not the lowest of its range.
        &[(1, 21, 5), (1, 22, 8)],
        // The words of its second key are those of no key: 16 bytes, and a byte behind the eight.
        &[(1, 26, 16)],
        &[(1, 26, 0x108)],
        // The node has level 2, over leaves.
        &[(1, 1, 2)],
        // Page 4, which is free, is a further child.
        &[
            (1, 2, 3),
            (1, 7, 544),
            (1, 19, 1024),
            (1, 24, 28),
            (1, 28, 19),
            (1, 29, 40),
            (1, 30, 8),
            (1, 31, 4),
        ],
        // Leaf 3 is met without its bit.
        &[(0, 0, 7)],
        // Page 4 has its bit and is not met.
        &[(0, 0, 31)],
        // The bit of a page that the space does not have.
        &[(0, 0, 0x1_000f)],
        // Leaf 2, which is not written, has a further range.
        &[(1, 25, 25)],
        // Leaf 2, which is not written, is no child any more.
        &[
            (1, 2, 1),
            (1, 6, 24),
            (1, 19, 512),
            (1, 20, 19),
            (1, 23, 3),
            (1, 24, 0),
        ],
    ];
    for others in rows {
        assert_eq!(rt; fault_with(rt.alloc(), others)?, NO_TREE);
    }
    Ok(())
}

#[test]
fn inserts_that_leave_another_map(rt: HostRuntime) {
    let rows: [&[PageWrite]; 6] = [
        // Another value than the map has.
        &[
            (3, 2, 1),
            (3, 7, 536),
            (3, 18, 276),
            (3, 19, 512),
            (3, 20, 19),
            (3, 21, 30),
            (3, 22, 8),
            (3, 23, 301),
        ],
        // Other keys: another number, and a zero byte more.
        &[
            (3, 2, 1),
            (3, 7, 536),
            (3, 18, 276),
            (3, 19, 512),
            (3, 20, 19),
            (3, 21, 31),
            (3, 22, 8),
            (3, 23, 300),
        ],
        &[
            (3, 2, 1),
            (3, 7, 536),
            (3, 18, 276),
            (3, 19, 512),
            (3, 20, 19),
            (3, 21, 30),
            (3, 22, 9),
            (3, 23, 300),
        ],
        // Words that are no key: of 16 bytes.
        &[
            (3, 2, 1),
            (3, 7, 536),
            (3, 18, 276),
            (3, 19, 512),
            (3, 20, 19),
            (3, 21, 30),
            (3, 22, 16),
            (3, 23, 300),
        ],
        // No record.
        &[(3, 5, 1)],
        // The key stands in leaf 2, whose range ends at 20.
        &[
            (2, 2, 2),
            (2, 7, 540),
            (2, 19, 768),
            (2, 20, 24),
            (2, 24, 19),
            (2, 25, 30),
            (2, 26, 8),
            (2, 27, 300),
        ],
    ];
    for writes in rows {
        assert_eq!(rt; fault_behind_split(rt.alloc(), insert_30(writes)), NO_TREE);
    }
}

#[test]
fn the_change_is_told_before_the_tree(rt: HostRuntime) {
    let unlawful = |kind| {
        Some(LogFault::Unlawful {
            place: BEHIND,
            kind,
        })
    };
    let step = |number, key| Step {
        flags: INSERT,
        number,
        key,
        value: 300,
        writes: &[(3, 5, 1)],
    };
    assert_eq!(rt;
        fault_behind_split(rt.alloc(), step(1, 10)),
        unlawful(UnlawfulKind::Number)
    );
    assert_eq!(rt;
        fault_behind_split(rt.alloc(), step(2, 10)),
        unlawful(UnlawfulKind::Change)
    );
    assert_eq!(rt;
        fault_behind_split(rt.alloc(), step(2, 30)),
        unlawful(UnlawfulKind::Tree)
    );
}
