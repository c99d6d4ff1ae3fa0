//! Latches without sleep, in a static library, which can hold nothing that waits, wakes or locks: so
//! tries, releases and moves of sessions reach none of these where `NoSleep` is in the place of
//! `Parkers`.
#![tactic(auto)]

ghost use Rattle.std.specs.Prelude.{◌≤◌, IfSome, IsTrue};
ghost use Rattle.ib_levels.specs.declared.level.Level.TheVariants.{TreeNode};
ghost use Rattle.ib_rule.specs.Pass.{IsAtRest, IsOf};
ghost use Rattle.ib_rule.specs.Takes.{MayTake};

use ib_latch::{Latches, NoSleep};
use ib_layout::Geometry;
use ib_levels::{Latch, Level};
use ib_logrec::AnyLaw;
use ib_rule::Pass;
use std::alloc::Global;

type Table = Latches<AnyLaw, NoSleep>;

// Page 1.
const PAGE: Latch = Latch(3);

/// Opens a table of 16 pages, and takes page 1 in S, SX and X, one after the other: how many of them
/// were granted, which are all three, or 0 where memory lacks.
#[unsafe(no_mangle)]
pub extern "C" fn ib_nosleep_grants(alloc: Global) -> u32
    ensures { result ≤ 3 }
{
    match grants(alloc) {
        Some(count) => count,
        None => 0,
    }
}

fn grants(alloc: Global) -> Option<u32>
    ensures { IfSome result (λ count. count ≤ 3) }
{
    let sizes = Geometry::new(16, 8196).ok()?;
    let mut table: Table = Latches::open(alloc, sizes).ok()?;
    let Ok(mut pass) = table.connect(alloc) else {
        table.discard();
        return None;
    };
    let count = read(&table, &mut pass) + claim(&table, &mut pass) + write(&table, &mut pass);
    table.disconnect(pass);
    table.discard();
    Some(count)
}

// Whether the session may take the page at the level of pages.
fn may_take(table: &Table, pass: &Pass) -> bool
    requires own { IsOf table.now pass.now }
    ensures { IsTrue result → MayTake table.now PAGE.0 TreeNode pass.now }
{
    PAGE.0 < table.space().geometry().pages() + 2
        && pass.may_grow()
        && pass.can_wish(PAGE, Level::TreeNode)
}

// S, and back again: 1 where it was granted.
fn read(table: &Table, pass: &mut Pass) -> u32
    requires rest { IsAtRest table.now pass.old }
    ensures rest { IsAtRest table.now pass.new }
    ensures one { result ≤ 1 }
{
    if !may_take(table, pass) {
        return 0;
    }
    match table.try_s(pass, PAGE, Level::TreeNode) {
        Ok(()) => {
            table.unlock_s(pass, PAGE);
            1
        }
        Err(_) => 0,
    }
}

// SX, and back again: 1 where it was granted.
fn claim(table: &Table, pass: &mut Pass) -> u32
    requires rest { IsAtRest table.now pass.old }
    ensures rest { IsAtRest table.now pass.new }
    ensures one { result ≤ 1 }
{
    if !may_take(table, pass) {
        return 0;
    }
    match table.try_sx(pass, PAGE, Level::TreeNode) {
        Ok(()) => {
            table.unlock_sx(pass, PAGE);
            1
        }
        Err(_) => 0,
    }
}

// X, and back again: 1 where it was granted.
fn write(table: &Table, pass: &mut Pass) -> u32
    requires rest { IsAtRest table.now pass.old }
    ensures rest { IsAtRest table.now pass.new }
    ensures one { result ≤ 1 }
{
    if !may_take(table, pass) {
        return 0;
    }
    match table.try_x(pass, PAGE, Level::TreeNode) {
        Ok(()) => {
            table.unlock_x(pass, PAGE);
            1
        }
        Err(_) => 0,
    }
}
