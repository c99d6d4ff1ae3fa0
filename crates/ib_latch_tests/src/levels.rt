//! Each level against each level, and lists that more than one level forbids.

use ib_levels::{Against, Held, Holding, Latch, Level, Mode, holds, may_add, may_take};

const ALL: [Level; 5] = [
    Level::Log,
    Level::PageNew,
    Level::Space,
    Level::TreeNode,
    Level::IndexTree,
];

fn held(number: u32, level: Level) -> Held {
    Held {
        latch: Latch(number),
        mode: Mode::S,
        level,
    }
}

#[test]
fn each_level_against_each(rt: HostRuntime) {
    for first in ALL {
        for then in ALL {
            let same = first == then && (then == Level::TreeNode || then == Level::PageNew);
            let answer = may_take(&[held(5, first)], Latch(6), then);
            assert_eq!(rt; answer.is_ok(), then.number() < first.number() || same);
            assert!(rt; may_take(&[held(5, first)], Latch(5), then).is_ok());
        }
    }
}

#[test]
fn first_level_against(rt: HostRuntime) {
    let list = [
        held(1, Level::IndexTree),
        held(2, Level::Space),
        held(0, Level::Log),
    ];
    let against = Against {
        held: Level::Space,
        wanted: Level::TreeNode,
    };
    assert_eq!(rt;
        may_take(&list, Latch::page(7), Level::TreeNode),
        Err(against)
    );
    assert_eq!(rt; may_take(&list, Latch::LOG, Level::TreeNode), Ok(()));
}

#[test]
fn holdings(rt: HostRuntime) {
    let index = Holding {
        latch: Latch::INDEX,
        level: Level::IndexTree,
        s: 0,
        sx: 1,
        x: 0,
    };
    let page = Holding {
        latch: Latch::page(1),
        level: Level::TreeNode,
        s: 0,
        sx: 0,
        x: 2,
    };
    let space = Level::from_number(3);
    assert_eq!(rt; index.held().mode, Mode::Sx);
    assert_eq!(rt;
        page.held(),
        Held {
            latch: Latch(3),
            mode: Mode::X,
            level: Level::TreeNode
        }
    );
    assert!(rt; holds(&[index, page], Latch::INDEX) && !holds(&[index, page], Latch::LOG));
    assert_eq!(rt;
        may_add(&[index, page], Latch::page(0), Level::Space),
        Ok(())
    );
    assert_eq!(rt; space, Some(Level::Space));
}
