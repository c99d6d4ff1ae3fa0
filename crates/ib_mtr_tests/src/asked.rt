//! Mini-transactions that commit where they answer that they may.

ghost use Rattle.std.specs.Prelude.{◌<◌};
ghost use Rattle.ib_rule.specs.Pass.{IsAtRest};
ghost use Rattle.ib_mtr.specs.Mtr.{IsMtr, IsStillMtr};

use crate::commits::{Table, Work, load, load_owned, small, take_x, touch};
use crate::locks::may_claim;
use crate::memos::come;
use ib_levels::{Latch, Level};
use ib_map::{Change, Key};
use ib_mtr::Mtr;
use ib_page::MOST_WORK_PAGES;
use ib_rule::Pass;
use std::process::Abort;
use std::sync::Wait;

// Commits an insert where it may, and ends without a change where it may not.
fn commit_where_it_may<R: Wait>(rt: &R, mtr: Work<'_>, key: Key, value: u64) -> Option<u32>
    requires { IsMtr mtr.latches.now mtr.pass.now }
    ensures rest { IsAtRest mtr.entry.latches.now mtr.exit.1.0.now }
{
    if mtr.may_commit_any() {
        mtr.commit(rt, Change::Insert { key, value }).ok()
    } else {
        mtr.commit_read();
        None
    }
}

// What it answers before X is held, before anything is changed, and where it commits.
fn one_page<R: Abort + Wait>(
    rt: &R,
    table: &Table,
    pass: &mut Pass,
    page: u32,
) -> (bool, bool, Option<u32>)
    requires rest { IsAtRest table.now pass.old }
    requires page { page < 4096 }
    ensures rest { IsAtRest table.now pass.new }
{
    let mut mtr = Mtr::start(table, pass);
    let at_first = mtr.may_commit_any();
    take_x(rt, &mut mtr, page);
    load_owned(rt, &mut mtr, page);
    let unchanged = mtr.may_commit_any();
    touch(rt, &mut mtr, page);
    (
        at_first,
        unchanged,
        commit_where_it_may(rt, mtr, Key::of_number(10), 100),
    )
}

// S on a page, which is loaded, and of which a word is changed.
fn change_what_is_read<R: Abort + Wait>(rt: &R, mtr: &mut Work<'_>, page: u32)
    requires mtr { IsMtr mtr.old.latches.now mtr.old.pass.now }
    requires page { page < 4096 }
    ensures still { IsStillMtr mtr.old mtr.new }
{
    let latch = Latch::page(page);
    assert!(rt; page < mtr.geometry().pages());
    assert!(rt; mtr.pass().may_grow());
    assert!(rt; mtr.pass().can_wish(latch, Level::TreeNode));
    mtr.s_latch(rt, latch, Level::TreeNode);
    load_read(rt, mtr, page);
    set_read(rt, mtr, page);
}

// The page, which it reads, as it is now.
fn load_read(rt: &impl Abort, mtr: &mut Work<'_>, page: u32)
    requires mtr { IsMtr mtr.old.latches.now mtr.old.pass.now }
    requires page { page < 4096 }
    ensures still { IsStillMtr mtr.old mtr.new }
{
    assert!(rt; page < mtr.geometry().pages());
    assert!(rt; mtr.pass().counts(Latch::page(page)).s > 0);
    assert!(rt; mtr.image(page).is_none());
    assert!(rt; mtr.pass().work().len() < MOST_WORK_PAGES);
    load(mtr, page);
}

// A word of the page is changed, whatever is held there.
fn set_read(rt: &impl Abort, mtr: &mut Work<'_>, page: u32)
    requires mtr { IsMtr mtr.old.latches.now mtr.old.pass.now }
    ensures still { IsStillMtr mtr.old mtr.new }
{
    assert!(rt; mtr.image(page).is_some());
    mtr.work().edit(page).set_word(5, 7);
}

// A page that is read, and changed.
fn page_in_s<R: Abort + Wait>(rt: &R, table: &Table, pass: &mut Pass, page: u32) -> Option<u32>
    requires rest { IsAtRest table.now pass.old }
    requires page { page < 4096 }
    ensures rest { IsAtRest table.now pass.new }
{
    let mut mtr = Mtr::start(table, pass);
    change_what_is_read(rt, &mut mtr, page);
    commit_where_it_may(rt, mtr, Key::of_number(10), 100)
}

// SX on the index.
fn take_index<R: Abort + Wait>(rt: &R, mtr: &mut Work<'_>)
    requires mtr { IsMtr mtr.old.latches.now mtr.old.pass.now }
    ensures still { IsStillMtr mtr.old mtr.new }
{
    may_claim(rt, mtr, Latch::INDEX, Level::IndexTree);
    mtr.sx_latch(rt, Latch::INDEX, Level::IndexTree);
}

// Two pages are changed, with SX on the index or without it.
fn two_pages<R: Abort + Wait>(rt: &R, table: &Table, pass: &mut Pass, index: bool) -> Option<u32>
    requires rest { IsAtRest table.now pass.old }
    ensures rest { IsAtRest table.now pass.new }
{
    let mut mtr = Mtr::start(table, pass);
    if index {
        take_index(rt, &mut mtr);
    }
    take_x(rt, &mut mtr, 3);
    load_owned(rt, &mut mtr, 3);
    touch(rt, &mut mtr, 3);
    take_x(rt, &mut mtr, 4);
    load_owned(rt, &mut mtr, 4);
    touch(rt, &mut mtr, 4);
    commit_where_it_may(rt, mtr, Key::of_number(11), 1)
}

#[test]
fn a_commit_is_asked_for(rt: HostRuntime) {
    let mut table = small(&rt, rt.alloc(), 8400);
    let mut one = come(&rt, rt.alloc(), &mut table);
    assert_eq!(rt; one_page(&rt, &table, &mut one, 3), (false, false, Some(0)));
    assert_eq!(rt; page_in_s(&rt, &table, &mut one, 3), None);
    assert_eq!(rt; two_pages(&rt, &table, &mut one, false), None);
    assert_eq!(rt; two_pages(&rt, &table, &mut one, true), Some(1));
    assert_eq!(rt; (one.grants_held(), one.made(), one.place()), (0, 2, 2));
    table.disconnect(one);
    assert_eq!(rt; table.connected(), 0);
    table.discard();
}
