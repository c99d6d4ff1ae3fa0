//! One session that reads a page, changes it twice, and closes the space.

ghost use Rattle.std.specs.Prelude.{◌≡◌, ◌<◌, ◌≤◌, [], ◌∷◌, false, length};
ghost use Rattle.ib_map.specs.Writes.{spans_pages};
ghost use Rattle.ib_core.specs.declared.phase.Phase.TheVariants.{Free};
ghost use Rattle.ib_core.specs.Sessions.{x_grants};
ghost use Rattle.ib_page.specs.Writes.{writes_of};
ghost use Rattle.ib_rule.specs.Pass.{IsOf};

use ib_core::Phase;
use ib_frames::{LogFull, append, log_end, read_page};
use ib_layout::Geometry;
use ib_levels::{Latch, Level, Mode};
use ib_logrec::AnyLaw;
use ib_map::{Change, Key, PAGE_WORDS};
use ib_page::{Image, WorkSet};
use ib_rule::{Pass, Space};
use ib_word::LockWord;
use std::alloc::Global;
use std::process::Abort;

// A page, its latch, and that of the log.
const PAGE: u32 = 3;

const FRAME: Latch = Latch(5);

const LOG: Latch = Latch(0);

// A space of 16 pages of zeros, which are free pages, with a log that takes two short entries.
fn small(rt: &impl Abort, alloc: Global) -> Space<AnyLaw>
    ensures ended { result.ended ≡ [] }
    ensures drawn { result.drawn ≡ 0 }
{
    let sizes = Geometry::new(16, 8203).expect(rt, "there are such sizes");
    Space::open(alloc, sizes).expect(rt, "there is memory")
}

// Takes X on a latch that is free.
fn take(rt: &impl Abort, space: &Space<AnyLaw>, pass: &mut Pass, latch: Latch, level: Level)
    requires own { IsOf space.now pass.old }
    ensures own { IsOf space.now pass.new }
    ensures scratch { pass.new.has_scratch ≡ pass.old.has_scratch }
{
    assert!(rt; latch.0 < space.geometry().pages() + 2);
    assert!(rt; pass.can_wish(latch, level));
    assert!(rt; pass.may_grow());
    let taken = space
        .take_first(pass, Mode::X, latch, level, LockWord::FREE)
        .is_ok();
    assert!(rt; taken);
}

// Gives the X back. Nobody waits for it.
fn give(rt: &impl Abort, space: &Space<AnyLaw>, pass: &mut Pass, latch: Latch)
    requires own { IsOf space.now pass.old }
    ensures own { IsOf space.now pass.new }
    ensures scratch { pass.new.has_scratch ≡ pass.old.has_scratch }
{
    assert!(rt; latch.0 < space.geometry().pages() + 2);
    assert!(rt; pass.phase() == Phase::Free);
    assert!(rt; pass.counts(latch).x == 1);
    let _ = space.give_x(pass, latch);
    let _ = space.load_waiters(pass, latch);
}

// The page as it is now, of which the session owns X.
fn read_owned(space: &Space<AnyLaw>, pass: &mut Pass) -> Image
    requires own { IsOf space.now pass.old }
    requires page { 3 < space.now.sizes.pages }
    requires free { pass.old.view.session.phase ≡ Free }
    requires frame { 0 < x_grants 5 pass.old.view.session }
    ensures own { IsOf space.now pass.new }
    ensures scratch { pass.new.has_scratch ≡ pass.old.has_scratch }
{
    let mut image = Image::leaf(0);
    read_page(space, pass, PAGE, &mut image);
    image
}

fn read(rt: &impl Abort, space: &Space<AnyLaw>, pass: &mut Pass) -> Image
    requires own { IsOf space.now pass.old }
    ensures own { IsOf space.now pass.new }
    ensures scratch { pass.new.has_scratch ≡ pass.old.has_scratch }
{
    assert!(rt; PAGE < space.geometry().pages());
    assert!(rt; pass.counts(FRAME).x > 0);
    assert!(rt; pass.phase() == Phase::Free);
    read_owned(space, pass)
}

// The page alone, as it was read and as it is changed.
fn work_on(rt: &impl Abort, alloc: Global, before: &Image, changed: &Image) -> WorkSet
    ensures { result
        ≡ record { page = 3; before = before.now; changed = changed.now } ∷ [] }
{
    let mut work = WorkSet::with_room(alloc).expect(rt, "there is memory");
    work.add(PAGE, before);
    *work.edit(PAGE) = *changed;
    work
}

// Looks at the log's end, and appends what is changed of the page.
fn append_change(
    space: &Space<AnyLaw>,
    pass: &mut Pass,
    before: &Image,
    changed: &Image,
    work: &WorkSet,
) -> Result<u32, LogFull>
    requires own { IsOf space.now pass.old }
    requires free { pass.old.view.session.phase ≡ Free }
    requires log { 0 < x_grants 0 pass.old.view.session }
    requires frame { 0 < x_grants 5 pass.old.view.session }
    requires made { length pass.old.view.memory.own < 1000 }
    requires page { 3 < space.now.sizes.pages }
    requires work { work.now
        ≡ record { page = 3; before = before.now; changed = changed.now } ∷ [] }
    requires some { 0 < length (writes_of work.now) }
    requires few { length (writes_of work.now) ≤ 160 }
    requires whole { spans_pages (writes_of work.now) ≡ false }
    ensures own { IsOf space.now pass.new }
    ensures scratch { pass.new.has_scratch ≡ pass.old.has_scratch }
{
    let _ = before;
    let _ = changed;
    log_end(space, pass);
    // A session's number fits an entry.
    let _ = pass.number();
    let key = Key::of_number(10);
    append(space, pass, Change::Insert { key, value: 7 }, work)
}

fn commit(
    rt: &impl Abort,
    alloc: Global,
    space: &Space<AnyLaw>,
    pass: &mut Pass,
    before: &Image,
    changed: &Image,
) -> u32
    requires own { IsOf space.now pass.old }
    ensures own { IsOf space.now pass.new }
    ensures scratch { pass.new.has_scratch ≡ pass.old.has_scratch }
{
    let work = work_on(rt, alloc, before, changed);
    let count = work.changed();
    assert!(rt; count > 0);
    assert!(rt; count <= 160);
    let structural = work.write_into(&mut [0; 320]).structural;
    assert!(rt; !structural);
    assert!(rt; PAGE < space.geometry().pages());
    assert!(rt; pass.phase() == Phase::Free);
    assert!(rt; pass.counts(LOG).x > 0);
    assert!(rt; pass.counts(FRAME).x > 0);
    assert!(rt; pass.made() < 1000);
    append_change(space, pass, before, changed, &work).expect(rt, "there is room")
}

// A word of the log as it lies in the table, below the end that was seen.
fn log_word(rt: &impl Abort, space: &Space<AnyLaw>, pass: &mut Pass, number: u32) -> u64
    requires own { IsOf space.now pass.old }
    ensures own { IsOf space.now pass.new }
    ensures scratch { pass.new.has_scratch ≡ pass.old.has_scratch }
{
    assert!(rt; number < pass.used());
    assert!(rt; pass.phase() == Phase::Free);
    space.load_log_word(pass, number)
}

fn is_same(one: &Image, other: &Image) -> bool {
    (0..PAGE_WORDS).all(|i| one.word(i) == other.word(i))
}

#[test]
fn a_page_is_changed_twice(rt: HostRuntime) {
    let mut space = small(&rt, rt.alloc());
    let mut pass = space.connect(rt.alloc()).expect(&rt, "a session");
    take(&rt, &space, &mut pass, FRAME, Level::TreeNode);
    take(&rt, &space, &mut pass, LOG, Level::Log);
    let before = read(&rt, &space, &mut pass);
    let mut image = before;
    for round in 0..2 {
        assert!(rt; image.is_formed());
        assert!(rt; image.clock() == round);
        image.touch();
        let place = commit(&rt, rt.alloc(), &space, &mut pass, &before, &image);
        assert!(rt; u64::from(place) == round);
        assert!(rt; is_same(&read(&rt, &space, &mut pass), &image));
    }
    assert!(rt; pass.phase() == Phase::Free);
    let end = log_end(&space, &mut pass);
    assert_eq!(rt; (end.entries, end.words, pass.made()), (2, 14, 2));
    let mut log = [0; 14];
    for (number, word) in log.iter_mut().enumerate() {
        *word = log_word(&rt, &space, &mut pass, number as u32);
    }
    give(&rt, &space, &mut pass, LOG);
    give(&rt, &space, &mut pass, FRAME);
    assert!(rt; pass.is_idle());
    space.disconnect(pass);
    let closed = match space.close(rt.alloc()) {
        Ok(closed) => closed,
        Err(refused) => {
            refused.space.discard();
            panic!(rt; "there is memory")
        }
    };
    assert!(rt; is_same(&closed.page(PAGE), &image));
    assert_eq!(rt; closed.log(), log.as_slice());
}

#[test]
fn the_words_of_an_ended_space_are_read_where_they_lie(rt: HostRuntime) {
    let mut space = small(&rt, rt.alloc());
    let mut pass = space.connect(rt.alloc()).expect(&rt, "a session");
    take(&rt, &space, &mut pass, FRAME, Level::TreeNode);
    take(&rt, &space, &mut pass, LOG, Level::Log);
    let before = read(&rt, &space, &mut pass);
    let mut image = before;
    assert!(rt; image.is_formed());
    assert!(rt; image.clock() == 0);
    image.touch();
    assert_eq!(rt;
        commit(&rt, rt.alloc(), &space, &mut pass, &before, &image),
        0
    );
    give(&rt, &space, &mut pass, LOG);
    give(&rt, &space, &mut pass, FRAME);
    assert!(rt; pass.is_idle());
    space.disconnect(pass);
    let words = space.into_words();
    assert_eq!(rt; (words.sessions(), words.used()), (1, 7));
    let log = words.log(rt.alloc()).expect(&rt, "there is memory");
    for (number, word) in log.iter().enumerate() {
        assert_eq!(rt; words.log_word(number as u32), *word);
    }
    assert!(rt; PAGE < words.geometry().pages());
    assert!(rt; is_same(&words.page(PAGE), &image));
}
