//! The worked table of one that arms itself, sessions that sleep until they are woken, and four
//! threads that lock one latch in every mode.

ghost use Rattle.std.specs.Prelude.{◌<◌};
ghost use Rattle.ib_levels.specs.declared.level.Mode.{Mode};
ghost use Rattle.ib_core.specs.declared.phase.Phase.TheVariants.{Flagged};
ghost use Rattle.ib_rule.specs.Pass.{IsOf};
ghost use Rattle.ib_rule.specs.Takes.{IsStillOf};

use crate::tries::{
    NODE, PAGE, busy, come, finish, is_ready, leave, may_claim, ready, reserve, s, smallest, sx,
    un_s, un_sx, un_x, word, write, x,
};
use ib_core::Phase;
use ib_latch::{Latches, Parkers, Reserve, TryFault};
use ib_levels::Mode;
use ib_logrec::AnyLaw;
use ib_rule::Pass;
use ib_word::LockWord;
use std::alloc::Global;
use std::process::Abort;
use std::sync::Wait;
use std::thread;
use std::thread::{Threads, join_mut};

type Table = Latches<AnyLaw, Parkers>;

// How often a test looks whether another thread waits, before it gives up.
const TURNS: u32 = 20_000_000;

fn arm(rt: &impl Abort, table: &Table, pass: &mut Pass, mode: Mode) -> u64
    requires own { IsOf table.now pass.old }
    ensures still { IsStillOf table.now pass.old pass.new }
{
    is_ready(rt, table, pass, PAGE);
    assert!(rt; pass.can_wish(PAGE, NODE));
    table.arm(pass, PAGE, mode, NODE)
}

fn recheck(rt: &impl Abort, table: &Table, pass: &mut Pass) -> Result<Reserve, TryFault>
    requires own { IsOf table.now pass.old }
    ensures still { IsStillOf table.now pass.old pass.new }
{
    assert!(rt; PAGE.0 < table.space().geometry().pages() + 2);
    assert!(rt; pass.may_grow());
    let Phase::Flagged { latch, .. } = pass.phase() else {
        panic!(rt; "the flag is set")
    };
    assert!(rt; latch == PAGE.0);
    table.recheck(pass, PAGE)
}

fn stand_down(rt: &impl Abort, table: &Table, pass: &mut Pass)
    requires own { IsOf table.now pass.old }
    ensures still { IsStillOf table.now pass.old pass.new }
{
    let Phase::Checked { latch, .. } = pass.phase() else {
        panic!(rt; "its wish was refused")
    };
    assert!(rt; latch < table.space().geometry().pages() + 2);
    table.stand_down(pass);
}

#[test]
fn who_is_armed_misses_no_release(rt: HostRuntime) {
    let mut table: Table = smallest(&rt, rt.alloc());
    let mut one = come(&rt, rt.alloc(), &mut table);
    let mut two = come(&rt, rt.alloc(), &mut table);
    assert_eq!(rt; x(&rt, &table, &mut one, PAGE), Ok(()));
    assert_eq!(rt; arm(&rt, &table, &mut two, Mode::S), 0);
    let refused = TryFault::Busy { word: LockWord(0) };
    assert_eq!(rt; recheck(&rt, &table, &mut two), Err(refused));
    stand_down(&rt, &table, &mut two);
    assert_eq!(rt; arm(&rt, &table, &mut two, Mode::S), 0);
    un_x(&rt, &table, &mut one, PAGE);
    assert_eq!(rt; recheck(&rt, &table, &mut two), Ok(Reserve::Owned));
    un_s(&rt, &table, &mut two, PAGE);
    assert_eq!(rt; arm(&rt, &table, &mut two, Mode::X), 1);
    assert_eq!(rt; recheck(&rt, &table, &mut two), Ok(Reserve::Owned));
    un_x(&rt, &table, &mut two, PAGE);
    leave(&rt, &mut table, one);
    leave(&rt, &mut table, two);
    finish(&rt, rt.alloc(), table, 2);
}

#[test]
fn each_session_has_a_sleeper(rt: HostRuntime) {
    let mut table: Table = smallest(&rt, rt.alloc());
    assert_eq!(rt; table.sleepers(), 0);
    let one = come(&rt, rt.alloc(), &mut table);
    assert_eq!(rt; table.sleepers(), 1);
    let two = come(&rt, rt.alloc(), &mut table);
    assert_eq!(rt; table.sleepers(), 2);
    leave(&rt, &mut table, one);
    leave(&rt, &mut table, two);
    finish(&rt, rt.alloc(), table, 2);
}

// The wish is granted at once, though the flag was set for it. It is answered which generation was recorded.
fn armed_in_vain(rt: &impl Abort, table: &Table, pass: &mut Pass) -> u64
    requires own { IsOf table.now pass.old }
    ensures still { IsStillOf table.now pass.old pass.new }
{
    let generation = arm(rt, table, pass, Mode::S);
    assert_eq!(rt; recheck(rt, table, pass), Ok(Reserve::Owned));
    un_s(rt, table, pass, PAGE);
    generation
}

// Takes the latch in every mode and is refused it, and each release finds nobody who waits.
fn every_mode(rt: &impl Abort, table: &Table, one: &mut Pass, two: &mut Pass)
    requires one { IsOf table.now one.old }
    requires two { IsOf table.now two.old }
    ensures one { IsStillOf table.now one.old one.new }
    ensures two { IsStillOf table.now two.old two.new }
{
    assert_eq!(rt; x(rt, table, one, PAGE), Ok(()));
    assert_eq!(rt; s(rt, table, two, PAGE), busy(0));
    un_x(rt, table, one, PAGE);
    assert_eq!(rt; sx(rt, table, two, PAGE), Ok(()));
    assert_eq!(rt; s(rt, table, one, PAGE), Ok(()));
    let next = Reserve::Next {
        word: LockWord(-268_435_457),
    };
    assert_eq!(rt; reserve(rt, table, two, PAGE), Ok(next));
    un_s(rt, table, one, PAGE);
    assert_eq!(rt; ready(rt, table, two, PAGE), Ok(()));
    un_x(rt, table, two, PAGE);
    un_sx(rt, table, two, PAGE);
}

#[test]
fn who_releases_raises_nothing_where_nobody_waits(rt: HostRuntime) {
    let mut table: Table = smallest(&rt, rt.alloc());
    let mut one = come(&rt, rt.alloc(), &mut table);
    let mut two = come(&rt, rt.alloc(), &mut table);
    every_mode(&rt, &table, &mut one, &mut two);
    assert_eq!(rt; armed_in_vain(&rt, &table, &mut two), 0);
    // The flag is set: the next release of X clears it, and raises the generation once.
    write(&rt, &table, &mut one, PAGE);
    every_mode(&rt, &table, &mut one, &mut two);
    write(&rt, &table, &mut one, PAGE);
    assert_eq!(rt; armed_in_vain(&rt, &table, &mut two), 1);
    assert_eq!(rt; armed_in_vain(&rt, &table, &mut two), 1);
    write(&rt, &table, &mut one, PAGE);
    assert_eq!(rt; armed_in_vain(&rt, &table, &mut two), 2);
    leave(&rt, &mut table, one);
    leave(&rt, &mut table, two);
    finish(&rt, rt.alloc(), table, 2);
}

fn lock_s<R: Abort + Wait>(rt: &R, table: &Table, pass: &mut Pass)
    requires own { IsOf table.now pass.old }
    ensures still { IsStillOf table.now pass.old pass.new }
{
    is_ready(rt, table, pass, PAGE);
    assert!(rt; pass.can_wish(PAGE, NODE));
    table.lock_s(rt, pass, PAGE, NODE);
}

fn lock_sx<R: Abort + Wait>(rt: &R, table: &Table, pass: &mut Pass)
    requires own { IsOf table.now pass.old }
    ensures still { IsStillOf table.now pass.old pass.new }
{
    is_ready(rt, table, pass, PAGE);
    may_claim(rt, pass, PAGE);
    table.lock_sx(rt, pass, PAGE, NODE);
}

fn lock_x<R: Abort + Wait>(rt: &R, table: &Table, pass: &mut Pass)
    requires own { IsOf table.now pass.old }
    ensures still { IsStillOf table.now pass.old pass.new }
{
    is_ready(rt, table, pass, PAGE);
    may_claim(rt, pass, PAGE);
    table.lock_x(rt, pass, PAGE, NODE);
}

// Until another thread has reserved a cell, so that it is about to sleep.
fn until_one_waits<R: Abort + Wait>(rt: &R, table: &Table) {
    for _ in 0..TURNS {
        if table.cells_ever(rt) > 0 {
            return;
        }
        thread::yield_now();
    }
    panic!(rt; "nobody came to wait")
}

// One thread waits for the latch in a mode, and gives it back.
fn waiter<R: Abort + Wait>(rt: &R, table: &Table, pass: &mut Pass, mode: Mode)
    requires own { IsOf table.now pass.old }
    ensures still { IsStillOf table.now pass.old pass.new }
{
    match mode {
        Mode::S => {
            lock_s(rt, table, pass);
            un_s(rt, table, pass, PAGE);
        }
        Mode::Sx => {
            lock_sx(rt, table, pass);
            un_sx(rt, table, pass, PAGE);
        }
        Mode::X => {
            lock_x(rt, table, pass);
            un_x(rt, table, pass, PAGE);
        }
    }
}

// The other holds the latch until somebody waits for it.
fn holder<R: Abort + Wait>(rt: &R, table: &Table, pass: &mut Pass, mode: Mode)
    requires own { IsOf table.now pass.old }
    ensures still { IsStillOf table.now pass.old pass.new }
{
    until_one_waits(rt, table);
    match mode {
        Mode::S => un_s(rt, table, pass, PAGE),
        Mode::Sx => un_sx(rt, table, pass, PAGE),
        Mode::X => un_x(rt, table, pass, PAGE),
    }
}

// One holds the latch in a mode, and another sleeps for it in a mode that does not go with it.
fn sleeps_until_woken<R: Abort + Wait + Threads + Sync>(
    rt: &R,
    alloc: Global,
    held: Mode,
    wished: Mode,
) {
    let mut table: Table = smallest(rt, alloc);
    let mut one = come(rt, alloc, &mut table);
    let mut two = come(rt, alloc, &mut table);
    match held {
        Mode::S => lock_s(rt, &table, &mut one),
        Mode::Sx => lock_sx(rt, &table, &mut one),
        Mode::X => lock_x(rt, &table, &mut one),
    }
    join_mut(
        rt,
        &mut || holder(rt, &table, &mut one, held),
        &mut || waiter(rt, &table, &mut two, wished),
    );
    assert_eq!(rt; table.cells_reserved(rt), 0);
    assert_eq!(rt; word(rt, &table, &mut one, PAGE), LockWord::FREE);
    leave(rt, &mut table, one);
    leave(rt, &mut table, two);
    finish(rt, alloc, table, 2);
}

#[test]
fn a_reader_sleeps_until_x_is_given_back(rt: HostRuntime) {
    sleeps_until_woken(&rt, rt.alloc(), Mode::X, Mode::S);
}

#[test]
fn sx_sleeps_until_sx_is_given_back(rt: HostRuntime) {
    sleeps_until_woken(&rt, rt.alloc(), Mode::Sx, Mode::Sx);
}

#[test]
fn a_next_writer_sleeps_until_the_readers_are_gone(rt: HostRuntime) {
    sleeps_until_woken(&rt, rt.alloc(), Mode::S, Mode::X);
}

// Takes the latch in one mode after the other, and gives it back: SX with X beside it, and X twice.
fn turn<R: Abort + Wait>(rt: &R, table: &Table, pass: &mut Pass, round: u32)
    requires own { IsOf table.now pass.old }
    ensures still { IsStillOf table.now pass.old pass.new }
{
    match round % 4 {
        0 | 1 => waiter(rt, table, pass, Mode::S),
        2 => {
            lock_sx(rt, table, pass);
            waiter(rt, table, pass, Mode::X);
            un_sx(rt, table, pass, PAGE);
        }
        _ => {
            lock_x(rt, table, pass);
            waiter(rt, table, pass, Mode::X);
            un_x(rt, table, pass, PAGE);
        }
    }
}

// What one thread does.
fn work<R: Abort + Wait>(rt: &R, table: &Table, pass: &mut Pass)
    requires own { IsOf table.now pass.old }
    ensures still { IsStillOf table.now pass.old pass.new }
{
    for round in 0..30_000 {
        turn(rt, table, pass, round);
    }
}

// Two threads.
fn pair<R: Abort + Wait + Threads + Sync>(rt: &R, table: &Table, one: &mut Pass, two: &mut Pass)
    requires one { IsOf table.now one.old }
    requires two { IsOf table.now two.old }
    ensures one { IsStillOf table.now one.old one.new }
    ensures two { IsStillOf table.now two.old two.new }
{
    join_mut(
        rt,
        &mut || work(rt, table, one),
        &mut || work(rt, table, two),
    );
}

#[test]
fn four_threads_lock_one_latch(rt: HostRuntime) {
    let mut table: Table = smallest(&rt, rt.alloc());
    let mut one = come(&rt, rt.alloc(), &mut table);
    let mut two = come(&rt, rt.alloc(), &mut table);
    let mut three = come(&rt, rt.alloc(), &mut table);
    let mut four = come(&rt, rt.alloc(), &mut table);
    join_mut(
        &rt,
        &mut || pair(&rt, &table, &mut one, &mut two),
        &mut || pair(&rt, &table, &mut three, &mut four),
    );
    assert_eq!(rt; table.cells_reserved(&rt), 0);
    assert_eq!(rt; word(&rt, &table, &mut one, PAGE), LockWord::FREE);
    leave(&rt, &mut table, one);
    leave(&rt, &mut table, two);
    leave(&rt, &mut table, three);
    leave(&rt, &mut table, four);
    finish(&rt, rt.alloc(), table, 4);
}
