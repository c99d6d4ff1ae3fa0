//! The worked tables, the numbers of sessions, and four threads that try.

ghost use Rattle.std.specs.Prelude.{◌≡◌, ◌<◌, true, []};
ghost use Rattle.ib_layout.specs.Places.{latches_of};
ghost use Rattle.ib_core.specs.declared.phase.Phase.TheVariants.{Free};
ghost use Rattle.ib_levels.specs.declared.level.Level.TheVariants.{TreeNode};
ghost use Rattle.ib_rule.specs.Conditions.{MayGrow};
ghost use Rattle.ib_rule.specs.Pass.{IsOf};
ghost use Rattle.ib_rule.specs.Takes.{IsStillOf};
ghost use Rattle.ib_rule.specs.Conditions.{MayClaim};

use ib_core::Phase;
use ib_latch::{Latches, NoSleep, NotReady, Reserve, Sleep, TryFault};
use ib_layout::Geometry;
use ib_levels::{Latch, Level};
use ib_logrec::AnyLaw;
use ib_rule::{ConnectFault, Pass};
use ib_word::LockWord;
use std::alloc::Global;
use std::process::Abort;
use std::sync::Wait;
use std::thread;
use std::thread::{Threads, join_mut};

type Table<S> = Latches<AnyLaw, S>;

// Page 1, and the level of a page.
pub(crate) const PAGE: Latch = Latch(3);

pub(crate) const NODE: Level = Level::TreeNode;

// A table of 16 pages, with the shortest log.
pub(crate) fn smallest<S: Sleep>(rt: &impl Abort, alloc: Global) -> Table<S>
    ensures ended { result.ended ≡ [] }
{
    let sizes = Geometry::new(16, 8196).expect(rt, "there are such sizes");
    Latches::open(alloc, sizes).expect(rt, "there is memory")
}

pub(crate) fn come<S: Sleep>(rt: &impl Abort, alloc: Global, table: &mut Table<S>) -> Pass
    ensures own { IsOf table.new result }
    ensures scratch { result.has_scratch ≡ true }
    ensures table { table.new.table ≡ table.old.table }
    ensures sizes { table.new.sizes ≡ table.old.sizes }
{
    table.connect(alloc).expect(rt, "a session")
}

// The latch is one of the table's, and the pass is in the middle of nothing and may take a grant.
pub(crate) fn is_ready<S: Sleep>(rt: &impl Abort, table: &Table<S>, pass: &Pass, latch: Latch)
    ensures latch { latch.0 < latches_of table.now.sizes }
    ensures free { pass.now.view.session.phase ≡ Free }
    ensures grows { MayGrow pass.now.view }
{
    assert!(rt; latch.0 < table.space().geometry().pages() + 2);
    assert!(rt; pass.phase() == Phase::Free);
    assert!(rt; pass.may_grow());
}

// It may wish for the latch, or has SX or X of it.
pub(crate) fn may_claim(rt: &impl Abort, pass: &Pass, latch: Latch)
    ensures { MayClaim latch.0 TreeNode pass.now.view.session }
{
    let counts = pass.counts(latch);
    assert!(rt; counts.s == 0);
    assert!(rt; counts.sx > 0 || counts.x > 0 || pass.can_wish(latch, NODE));
}

pub(crate) fn word<S: Sleep>(
    rt: &impl Abort,
    table: &Table<S>,
    pass: &mut Pass,
    latch: Latch,
) -> LockWord
    requires own { IsOf table.now pass.old }
    ensures still { IsStillOf table.now pass.old pass.new }
{
    is_ready(rt, table, pass, latch);
    table.word_of(pass, latch)
}

pub(crate) fn s<S: Sleep>(
    rt: &impl Abort,
    table: &Table<S>,
    pass: &mut Pass,
    latch: Latch,
) -> Result<(), TryFault>
    requires own { IsOf table.now pass.old }
    ensures still { IsStillOf table.now pass.old pass.new }
{
    is_ready(rt, table, pass, latch);
    assert!(rt; pass.can_wish(latch, NODE));
    table.try_s(pass, latch, NODE)
}

pub(crate) fn sx<S: Sleep>(
    rt: &impl Abort,
    table: &Table<S>,
    pass: &mut Pass,
    latch: Latch,
) -> Result<(), TryFault>
    requires own { IsOf table.now pass.old }
    ensures still { IsStillOf table.now pass.old pass.new }
{
    is_ready(rt, table, pass, latch);
    may_claim(rt, pass, latch);
    table.try_sx(pass, latch, NODE)
}

pub(crate) fn x<S: Sleep>(
    rt: &impl Abort,
    table: &Table<S>,
    pass: &mut Pass,
    latch: Latch,
) -> Result<(), TryFault>
    requires own { IsOf table.now pass.old }
    ensures still { IsStillOf table.now pass.old pass.new }
{
    is_ready(rt, table, pass, latch);
    may_claim(rt, pass, latch);
    let counts = pass.counts(latch);
    assert!(rt; counts.sx == 0 || counts.x > 0);
    table.try_x(pass, latch, NODE)
}

pub(crate) fn reserve<S: Sleep>(
    rt: &impl Abort,
    table: &Table<S>,
    pass: &mut Pass,
    latch: Latch,
) -> Result<Reserve, TryFault>
    requires own { IsOf table.now pass.old }
    ensures still { IsStillOf table.now pass.old pass.new }
{
    is_ready(rt, table, pass, latch);
    may_claim(rt, pass, latch);
    table.reserve_x(pass, latch, NODE)
}

pub(crate) fn ready<S: Sleep>(
    rt: &impl Abort,
    table: &Table<S>,
    pass: &mut Pass,
    latch: Latch,
) -> Result<(), NotReady>
    requires own { IsOf table.now pass.old }
    ensures still { IsStillOf table.now pass.old pass.new }
{
    assert!(rt; latch.0 < table.space().geometry().pages() + 2);
    let next = Phase::Next {
        latch: latch.0,
        level: NODE,
    };
    assert!(rt; pass.phase() == next);
    table.ready_x(pass, latch)
}

pub(crate) fn un_s<S: Sleep>(rt: &impl Abort, table: &Table<S>, pass: &mut Pass, latch: Latch)
    requires own { IsOf table.now pass.old }
    ensures still { IsStillOf table.now pass.old pass.new }
{
    is_ready(rt, table, pass, latch);
    assert!(rt; pass.counts(latch).s > 0);
    table.unlock_s(pass, latch);
}

pub(crate) fn un_sx<S: Sleep>(rt: &impl Abort, table: &Table<S>, pass: &mut Pass, latch: Latch)
    requires own { IsOf table.now pass.old }
    ensures still { IsStillOf table.now pass.old pass.new }
{
    is_ready(rt, table, pass, latch);
    assert!(rt; pass.counts(latch).sx > 0);
    table.unlock_sx(pass, latch);
}

pub(crate) fn un_x<S: Sleep>(rt: &impl Abort, table: &Table<S>, pass: &mut Pass, latch: Latch)
    requires own { IsOf table.now pass.old }
    ensures still { IsStillOf table.now pass.old pass.new }
{
    is_ready(rt, table, pass, latch);
    assert!(rt; pass.counts(latch).x > 0);
    table.unlock_x(pass, latch);
}

// A session that holds nothing any more ends.
pub(crate) fn leave<S: Sleep>(rt: &impl Abort, table: &mut Table<S>, pass: Pass)
    requires own { IsOf table.old pass }
    requires scratch { pass.has_scratch ≡ true }
    ensures table { table.new.table ≡ table.old.table }
    ensures sizes { table.new.sizes ≡ table.old.sizes }
{
    assert!(rt; pass.is_idle());
    table.disconnect(pass);
}

pub(crate) fn busy(word: i32) -> Result<(), TryFault> {
    Err(TryFault::Busy {
        word: LockWord(word),
    })
}

#[test]
fn readers_and_sx(rt: HostRuntime) {
    let mut table: Table<NoSleep> = smallest(&rt, rt.alloc());
    let mut one = come(&rt, rt.alloc(), &mut table);
    let mut two = come(&rt, rt.alloc(), &mut table);
    let mut three = come(&rt, rt.alloc(), &mut table);
    assert_eq!(rt; s(&rt, &table, &mut one, PAGE), Ok(()));
    assert_eq!(rt; s(&rt, &table, &mut two, PAGE), Ok(()));
    assert_eq!(rt; word(&rt, &table, &mut two, PAGE), LockWord(536_870_910));
    assert_eq!(rt; x(&rt, &table, &mut three, PAGE), busy(536_870_910));
    assert_eq!(rt; sx(&rt, &table, &mut three, PAGE), Ok(()));
    assert_eq!(rt; word(&rt, &table, &mut three, PAGE), LockWord(268_435_454));
    un_s(&rt, &table, &mut two, PAGE);
    assert_eq!(rt; sx(&rt, &table, &mut two, PAGE), busy(268_435_455));
    un_s(&rt, &table, &mut one, PAGE);
    un_sx(&rt, &table, &mut three, PAGE);
    assert_eq!(rt; word(&rt, &table, &mut three, PAGE), LockWord::FREE);
    leave(&rt, &mut table, one);
    leave(&rt, &mut table, two);
    leave(&rt, &mut table, three);
    assert_eq!(rt; table.connected(), 0);
    table.discard();
}

#[test]
fn the_next_writer(rt: HostRuntime) {
    let mut table: Table<NoSleep> = smallest(&rt, rt.alloc());
    let mut one = come(&rt, rt.alloc(), &mut table);
    let mut two = come(&rt, rt.alloc(), &mut table);
    let mut three = come(&rt, rt.alloc(), &mut table);
    let left = LockWord(-1);
    assert_eq!(rt; s(&rt, &table, &mut two, PAGE), Ok(()));
    assert_eq!(rt;
        reserve(&rt, &table, &mut one, PAGE),
        Ok(Reserve::Next { word: left })
    );
    assert_eq!(rt; s(&rt, &table, &mut three, PAGE), busy(-1));
    assert_eq!(rt;
        ready(&rt, &table, &mut one, PAGE),
        Err(NotReady { word: left })
    );
    un_s(&rt, &table, &mut two, PAGE);
    assert_eq!(rt; ready(&rt, &table, &mut one, PAGE), Ok(()));
    assert_eq!(rt; x(&rt, &table, &mut one, PAGE), Ok(()));
    assert_eq!(rt; word(&rt, &table, &mut one, PAGE), LockWord(-536_870_912));
    assert_eq!(rt; sx(&rt, &table, &mut one, PAGE), Ok(()));
    assert_eq!(rt; word(&rt, &table, &mut one, PAGE), LockWord(-805_306_368));
    un_sx(&rt, &table, &mut one, PAGE);
    un_x(&rt, &table, &mut one, PAGE);
    un_x(&rt, &table, &mut one, PAGE);
    assert_eq!(rt; word(&rt, &table, &mut one, PAGE), LockWord::FREE);
    leave(&rt, &mut table, one);
    leave(&rt, &mut table, two);
    leave(&rt, &mut table, three);
    assert_eq!(rt; table.connected(), 0);
    table.discard();
}

#[test]
fn an_upgrade_past_a_reader(rt: HostRuntime) {
    let mut table: Table<NoSleep> = smallest(&rt, rt.alloc());
    let mut one = come(&rt, rt.alloc(), &mut table);
    let mut two = come(&rt, rt.alloc(), &mut table);
    let left = LockWord(-268_435_457);
    assert_eq!(rt; s(&rt, &table, &mut two, PAGE), Ok(()));
    assert_eq!(rt; sx(&rt, &table, &mut one, PAGE), Ok(()));
    assert_eq!(rt;
        reserve(&rt, &table, &mut one, PAGE),
        Ok(Reserve::Next { word: left })
    );
    assert_eq!(rt;
        ready(&rt, &table, &mut one, PAGE),
        Err(NotReady { word: left })
    );
    un_s(&rt, &table, &mut two, PAGE);
    assert_eq!(rt; ready(&rt, &table, &mut one, PAGE), Ok(()));
    un_x(&rt, &table, &mut one, PAGE);
    un_sx(&rt, &table, &mut one, PAGE);
    assert_eq!(rt; word(&rt, &table, &mut one, PAGE), LockWord::FREE);
    leave(&rt, &mut table, one);
    leave(&rt, &mut table, two);
    assert_eq!(rt; table.connected(), 0);
    table.discard();
}

#[test]
fn there_are_1024_sessions(rt: HostRuntime) {
    let mut table: Table<NoSleep> = smallest(&rt, rt.alloc());
    for number in 1..1025 {
        let pass = come(&rt, rt.alloc(), &mut table);
        assert_eq!(rt; pass.number(), number);
        leave(&rt, &mut table, pass);
    }
    match table.connect(rt.alloc()) {
        Err(ConnectFault::TooManySessions { drawn }) => assert_eq!(rt; drawn, 1024),
        Err(ConnectFault::OutOfMemory) => panic!(rt; "there is memory"),
        Ok(pass) => leave(&rt, &mut table, pass),
    }
    assert_eq!(rt; table.connected(), 0);
    assert_eq!(rt; table.connected(), 0);
    table.discard();
}

// X is owned once no reader is left.
fn wait<R: Abort + Wait>(rt: &R, table: &Table<NoSleep>, pass: &mut Pass, latch: Latch)
    requires own { IsOf table.now pass.old }
    ensures still { IsStillOf table.now pass.old pass.new }
{
    'waiting: for _ in rt.forever() {
        if ready(rt, table, pass, latch).is_ok() {
            break 'waiting;
        }
        thread::yield_now();
    }
}

// S, and what is refused is let be.
pub(crate) fn read<S: Sleep>(rt: &impl Abort, table: &Table<S>, pass: &mut Pass, latch: Latch)
    requires own { IsOf table.now pass.old }
    ensures still { IsStillOf table.now pass.old pass.new }
{
    if s(rt, table, pass, latch).is_ok() {
        un_s(rt, table, pass, latch);
    }
}

// SX twice, and X beside it.
fn claim<R: Abort + Wait>(rt: &R, table: &Table<NoSleep>, pass: &mut Pass, latch: Latch)
    requires own { IsOf table.now pass.old }
    ensures still { IsStillOf table.now pass.old pass.new }
{
    if sx(rt, table, pass, latch).is_err() {
        return;
    }
    let again = sx(rt, table, pass, latch);
    assert_eq!(rt; again, Ok(()));
    un_sx(rt, table, pass, latch);
    own(rt, table, pass, latch);
    un_sx(rt, table, pass, latch);
}

// X, as soon as no reader is left.
fn own<R: Abort + Wait>(rt: &R, table: &Table<NoSleep>, pass: &mut Pass, latch: Latch)
    requires own { IsOf table.now pass.old }
    ensures still { IsStillOf table.now pass.old pass.new }
{
    match reserve(rt, table, pass, latch) {
        Err(_) => return,
        Ok(Reserve::Owned) => {}
        Ok(Reserve::Next { .. }) => wait(rt, table, pass, latch),
    }
    let again = x(rt, table, pass, latch);
    assert_eq!(rt; again, Ok(()));
    un_x(rt, table, pass, latch);
    un_x(rt, table, pass, latch);
}

// X alone.
pub(crate) fn write<S: Sleep>(rt: &impl Abort, table: &Table<S>, pass: &mut Pass, latch: Latch)
    requires own { IsOf table.now pass.old }
    ensures still { IsStillOf table.now pass.old pass.new }
{
    if x(rt, table, pass, latch).is_ok() {
        un_x(rt, table, pass, latch);
    }
}

fn turn<R: Abort + Wait>(rt: &R, table: &Table<NoSleep>, pass: &mut Pass, round: u32)
    requires own { IsOf table.now pass.old }
    ensures still { IsStillOf table.now pass.old pass.new }
{
    let latch = Latch(2 + round % 3);
    match round / 3 % 4 {
        0 => read(rt, table, pass, latch),
        1 => claim(rt, table, pass, latch),
        2 => own(rt, table, pass, latch),
        _ => write(rt, table, pass, latch),
    }
}

// What one thread does.
fn work<R: Abort + Wait>(rt: &R, table: &Table<NoSleep>, pass: &mut Pass)
    requires own { IsOf table.now pass.old }
    ensures still { IsStillOf table.now pass.old pass.new }
{
    for round in 0..12_000 {
        turn(rt, table, pass, round);
    }
}

// Two threads.
fn pair<R: Abort + Wait + Threads + Sync>(
    rt: &R,
    table: &Table<NoSleep>,
    one: &mut Pass,
    two: &mut Pass,
)
    requires one { IsOf table.now one.old }
    requires two { IsOf table.now two.old }
    ensures one { IsStillOf table.now one.old one.new }
    ensures two { IsStillOf table.now two.old two.new }
{
    join_mut(
        rt,
        &mut || work(rt, table, one),
        &mut || work(rt, table, two),
    );
}

pub(crate) fn all_free<S: Sleep>(rt: &impl Abort, table: &Table<S>, pass: &mut Pass)
    requires own { IsOf table.now pass.old }
    ensures still { IsStillOf table.now pass.old pass.new }
{
    for latch in 0..18 {
        let found = word(rt, table, pass, Latch(latch));
        assert_eq!(rt; found, LockWord::FREE);
    }
}

#[test]
fn four_threads_leave_every_latch_free(rt: HostRuntime) {
    let mut table: Table<NoSleep> = smallest(&rt, rt.alloc());
    let mut one = come(&rt, rt.alloc(), &mut table);
    let mut two = come(&rt, rt.alloc(), &mut table);
    let mut three = come(&rt, rt.alloc(), &mut table);
    let mut four = come(&rt, rt.alloc(), &mut table);
    join_mut(
        &rt,
        &mut || pair(&rt, &table, &mut one, &mut two),
        &mut || pair(&rt, &table, &mut three, &mut four),
    );
    all_free(&rt, &table, &mut one);
    table.meet(&mut one, &mut two);
    table.meet(&mut three, &mut four);
    leave(&rt, &mut table, one);
    leave(&rt, &mut table, two);
    leave(&rt, &mut table, three);
    leave(&rt, &mut table, four);
    finish(&rt, rt.alloc(), table, 4);
}

// Nobody is connected any more: the table is closed, with an empty log.
pub(crate) fn finish<S: Sleep>(rt: &impl Abort, alloc: Global, table: Table<S>, sessions: u32) {
    assert_eq!(rt; table.connected(), 0);
    match table.close(alloc) {
        Ok(closed) => assert_eq!(rt; (closed.sessions(), closed.log().len()), (sessions, 0)),
        Err(refused) => {
            refused.latches.discard();
            panic!(rt; "there is memory")
        }
    }
}
