//! Lookups and changes by guesses: what a session is answered, which latches it is granted, and which guesses it looks
//! at and leaves.

ghost use Rattle.std.specs.Prelude.{◌≡◌};
ghost use Rattle.ib_index_tests.specs.Guessing.{IsReady};

use crate::rows::{deleted, insert_up_to, inserted, missing};
use crate::space::{come, delete, insert, may_call, open};
use ib_hash::{GuessPass, Guesses, MOST_PASSES, Miss, get, slot_of, try_delete, try_insert};
use ib_index::{Index, SharedSpace};
use ib_map::{Call, Key, Record, Reply};
use ib_rule::{Grants, Pass};
use std::alloc::Global;
use std::process::Abort;
use std::sync::Wait;

// An index, and the guesses that its sessions share.
struct Guessed {
    index: Index,
    guesses: Guesses,
}

// A session, with its pass on guesses.
struct Session {
    pass: Pass,
    gp: GuessPass,
}

// An index on 16 pages, without a guess.
fn open_guessed(rt: &impl Abort, alloc: Global) -> Guessed
    ensures { result.guesses.pages ≡ result.index.sizes.pages }
{
    Guessed {
        index: open(rt, alloc, 32768),
        guesses: Guesses::open(alloc, 16).expect(rt, "there is memory"),
    }
}

fn come_guessing(rt: &impl Abort, alloc: Global, tree: &mut Guessed) -> Session
    requires pages { tree.old.guesses.pages ≡ tree.old.index.sizes.pages }
    ensures ready { IsReady tree.new.guesses tree.new.index result.gp result.pass }
    ensures table { tree.new.index.table ≡ tree.old.index.table }
    ensures sizes { tree.new.index.sizes ≡ tree.old.index.sizes }
    ensures guesses { tree.new.guesses.table ≡ tree.old.guesses.table }
    ensures pages { tree.new.guesses.pages ≡ tree.old.guesses.pages }
{
    assert!(rt; tree.guesses.drawn() < MOST_PASSES);
    Session {
        pass: come(rt, alloc, &mut tree.index),
        gp: tree.guesses.connect(),
    }
}

fn leave(tree: &mut Guessed, session: Session)
    requires ready { IsReady tree.old.guesses tree.old.index session.gp session.pass }
    ensures table { tree.new.index.table ≡ tree.old.index.table }
    ensures sizes { tree.new.index.sizes ≡ tree.old.index.sizes }
    ensures guesses { tree.new.guesses ≡ tree.old.guesses }
{
    let Session { pass, gp } = session;
    tree.guesses.disconnect(gp);
    tree.index.disconnect(pass);
}

// Every session has left.
fn discard(rt: &impl Abort, tree: Guessed) {
    let Guessed { index, guesses: _ } = tree;
    assert_eq!(rt; index.connected(), 0);
    index.discard();
}

fn get_by<R: Abort + Wait>(rt: &R, tree: &Guessed, session: &mut Session, key: u64) -> Record
    requires ready { IsReady tree.now.guesses tree.now.index session.old.gp session.old.pass }
    ensures ready { IsReady tree.now.guesses tree.now.index session.new.gp session.new.pass }
{
    may_call(rt, &session.pass);
    let Session { pass, gp } = session;
    let latches = tree.index.latches();
    get(rt, &tree.guesses, latches, gp, pass, Key::of_number(key))
}

fn insert_by<R: Abort + Wait>(
    rt: &R,
    tree: &Guessed,
    session: &mut Session,
    key: u64,
    value: u64,
) -> Result<Record, Miss>
    requires ready { IsReady tree.now.guesses tree.now.index session.old.gp session.old.pass }
    ensures ready { IsReady tree.now.guesses tree.now.index session.new.gp session.new.pass }
{
    may_call(rt, &session.pass);
    let Session { pass, gp } = session;
    let latches = tree.index.latches();
    try_insert(
        rt,
        &tree.guesses,
        latches,
        gp,
        pass,
        Key::of_number(key),
        value,
    )
}

fn delete_by<R: Abort + Wait>(
    rt: &R,
    tree: &Guessed,
    session: &mut Session,
    key: u64,
) -> Result<Record, Miss>
    requires ready { IsReady tree.now.guesses tree.now.index session.old.gp session.old.pass }
    ensures ready { IsReady tree.now.guesses tree.now.index session.new.gp session.new.pass }
{
    may_call(rt, &session.pass);
    let Session { pass, gp } = session;
    let latches = tree.index.latches();
    try_delete(rt, &tree.guesses, latches, gp, pass, Key::of_number(key))
}

fn looked_up(key: u64, reply: Reply, place: u32) -> Record {
    let key = Key::of_number(key);
    Record {
        call: Call::Get { key },
        reply,
        place,
    }
}

fn found(key: u64, place: u32) -> Record {
    looked_up(key, Reply::Found { value: key }, place)
}

// The answer to a lookup.
fn check_get<R: Abort + Wait>(
    rt: &R,
    tree: &Guessed,
    session: &mut Session,
    key: u64,
    expected: Record,
)
    requires ready { IsReady tree.now.guesses tree.now.index session.old.gp session.old.pass }
    ensures ready { IsReady tree.now.guesses tree.now.index session.new.gp session.new.pass }
{
    assert_eq!(rt; get_by(rt, tree, session, key), expected);
}

// The answer to an insert whose guess is right.
fn check_insert<R: Abort + Wait>(
    rt: &R,
    tree: &Guessed,
    session: &mut Session,
    key: u64,
    value: u64,
    expected: Record,
)
    requires ready { IsReady tree.now.guesses tree.now.index session.old.gp session.old.pass }
    ensures ready { IsReady tree.now.guesses tree.now.index session.new.gp session.new.pass }
{
    let answer = insert_by(rt, tree, session, key, value);
    assert_eq!(rt; answer.expect(rt, "the guess is right"), expected);
}

// The answer to a delete whose guess is right.
fn check_delete<R: Abort + Wait>(
    rt: &R,
    tree: &Guessed,
    session: &mut Session,
    key: u64,
    expected: Record,
)
    requires ready { IsReady tree.now.guesses tree.now.index session.old.gp session.old.pass }
    ensures ready { IsReady tree.now.guesses tree.now.index session.new.gp session.new.pass }
{
    let answer = delete_by(rt, tree, session, key);
    assert_eq!(rt; answer.expect(rt, "the guess is right"), expected);
}

// The key is in the leaf of this page, or would be, but the change needs more than this page.
fn check_need(rt: &impl Abort, answer: Result<Record, Miss>, expected: u32) {
    match answer {
        Err(Miss::NeedsTree { page }) => assert_eq!(rt; page, expected),
        _ => panic!(rt; "it needs the tree"),
    }
}

// This page was a wrong guess.
fn check_wrong(rt: &impl Abort, answer: Result<Record, Miss>, expected: u32) {
    match answer {
        Err(Miss::Wrong { page }) => assert_eq!(rt; page, expected),
        _ => panic!(rt; "the guess is wrong"),
    }
}

// Takes a key, which has a value equal to it, out by a descent, at this place.
fn delete_at<R: Abort + Wait>(rt: &R, tree: &Guessed, session: &mut Session, key: u64, place: u32)
    requires ready { IsReady tree.now.guesses tree.now.index session.old.gp session.old.pass }
    ensures ready { IsReady tree.now.guesses tree.now.index session.new.gp session.new.pass }
{
    assert_eq!(rt;
        delete(rt, &tree.index, &mut session.pass, key),
        deleted(key, key, place)
    );
}

// So many grants of S, SX and X were taken since these.
fn check_grants(rt: &impl Abort, session: &Session, before: Grants, s: u64, sx: u64, x: u64) {
    let now = session.pass.grants_taken();
    assert!(rt; before.s <= now.s);
    assert!(rt; before.sx <= now.sx);
    assert!(rt; before.x <= now.x);
    assert_eq!(rt; now.s - before.s, s);
    assert_eq!(rt; now.sx - before.sx, sx);
    assert_eq!(rt; now.x - before.x, x);
}

// The slot and the word of the last look at a guess, and of the last one that was left.
fn check_steps(
    rt: &impl Abort,
    session: &Session,
    looked: Option<(u32, u64)>,
    stored: Option<(u32, u64)>,
) {
    assert_eq!(rt; session.gp.looked(), looked);
    assert_eq!(rt; session.gp.stored(), stored);
}

// The second word of each of these keys is 8, which weighs 248. 4,098 is 5 more than the number of slots.
#[test]
fn a_slot_is_that_of_the_two_words(rt: HostRuntime) {
    assert_eq!(rt; slot_of(Key::least()), 0);
    assert_eq!(rt; slot_of(Key::of_number(5)), 253);
    assert_eq!(rt; slot_of(Key::of_number(3844)), 4092);
    assert_eq!(rt; slot_of(Key::of_number(3845)), 0);
    assert_eq!(rt; slot_of(Key::of_number(4098)), 253);
}

// The tree has two leaves: page 2 with the keys 1 to 18, and page 3 with 19 to 36.
#[test]
fn a_lookup_leaves_the_leaf_as_a_guess(rt: HostRuntime) {
    let mut tree = open_guessed(&rt, rt.alloc());
    let mut one = come_guessing(&rt, rt.alloc(), &mut tree);
    insert_up_to(&rt, &tree.index, &mut one.pass, 36);
    check_steps(&rt, &one, None, None);
    let before = one.pass.grants_taken();
    check_get(&rt, &tree, &mut one, 5, found(5, 36));
    check_grants(&rt, &one, before, 3, 0, 0);
    check_steps(&rt, &one, Some((253, 0)), Some((253, 2)));
    check_get(&rt, &tree, &mut one, 20, found(20, 36));
    check_grants(&rt, &one, before, 6, 0, 0);
    check_steps(&rt, &one, Some((268, 0)), Some((268, 3)));
    check_get(&rt, &tree, &mut one, 5, found(5, 36));
    check_grants(&rt, &one, before, 7, 0, 0);
    check_steps(&rt, &one, Some((253, 2)), Some((268, 3)));
    leave(&mut tree, one);
    discard(&rt, tree);
}

// The key lies behind the records of the leaf that was guessed, so its own leaf becomes the guess.
#[test]
fn two_keys_take_one_slot_from_each_other(rt: HostRuntime) {
    let mut tree = open_guessed(&rt, rt.alloc());
    let mut one = come_guessing(&rt, rt.alloc(), &mut tree);
    insert_up_to(&rt, &tree.index, &mut one.pass, 36);
    check_get(&rt, &tree, &mut one, 5, found(5, 36));
    let before = one.pass.grants_taken();
    let none = looked_up(4098, Reply::NotFound, 36);
    check_get(&rt, &tree, &mut one, 4098, none);
    check_grants(&rt, &one, before, 4, 0, 0);
    check_steps(&rt, &one, Some((253, 2)), Some((253, 3)));
    check_get(&rt, &tree, &mut one, 5, found(5, 36));
    check_grants(&rt, &one, before, 8, 0, 0);
    check_steps(&rt, &one, Some((253, 3)), Some((253, 2)));
    leave(&mut tree, one);
    discard(&rt, tree);
}

// The leaf has 17 records.
#[test]
fn a_short_leaf_needs_the_tree(rt: HostRuntime) {
    let mut tree = open_guessed(&rt, rt.alloc());
    let mut one = come_guessing(&rt, rt.alloc(), &mut tree);
    insert_up_to(&rt, &tree.index, &mut one.pass, 36);
    delete_at(&rt, &tree, &mut one, 36, 36);
    check_get(&rt, &tree, &mut one, 35, found(35, 37));
    check_steps(&rt, &one, Some((283, 0)), Some((283, 3)));
    let before = one.pass.grants_taken();
    let answer = delete_by(&rt, &tree, &mut one, 35);
    check_need(&rt, answer, 3);
    check_grants(&rt, &one, before, 0, 0, 1);
    check_steps(&rt, &one, Some((283, 3)), Some((283, 3)));
    leave(&mut tree, one);
    discard(&rt, tree);
}

// The leaf is merged into the one before it, and the root becomes the one leaf.
#[test]
fn a_leaf_that_was_merged_away_is_a_wrong_guess(rt: HostRuntime) {
    let mut tree = open_guessed(&rt, rt.alloc());
    let mut one = come_guessing(&rt, rt.alloc(), &mut tree);
    insert_up_to(&rt, &tree.index, &mut one.pass, 36);
    check_get(&rt, &tree, &mut one, 20, found(20, 36));
    check_get(&rt, &tree, &mut one, 35, found(35, 36));
    delete_at(&rt, &tree, &mut one, 36, 36);
    delete_at(&rt, &tree, &mut one, 35, 37);
    let before = one.pass.grants_taken();
    check_get(&rt, &tree, &mut one, 20, found(20, 38));
    check_grants(&rt, &one, before, 3, 0, 0);
    check_steps(&rt, &one, Some((268, 3)), Some((268, 1)));
    assert!(rt; matches!(insert_by(&rt, &tree, &mut one, 99, 1), Err(Miss::NoGuess)));
    check_grants(&rt, &one, before, 3, 0, 0);
    check_steps(&rt, &one, Some((347, 0)), Some((268, 1)));
    let answer = delete_by(&rt, &tree, &mut one, 35);
    check_wrong(&rt, answer, 3);
    check_grants(&rt, &one, before, 3, 0, 1);
    check_steps(&rt, &one, Some((283, 3)), Some((268, 1)));
    leave(&mut tree, one);
    discard(&rt, tree);
}

// X is taken on the leaf, and on the log latch by a change that is made.
#[test]
fn a_right_guess_changes_its_leaf(rt: HostRuntime) {
    let mut tree = open_guessed(&rt, rt.alloc());
    let mut one = come_guessing(&rt, rt.alloc(), &mut tree);
    insert_up_to(&rt, &tree.index, &mut one.pass, 36);
    check_get(&rt, &tree, &mut one, 20, found(20, 36));
    let before = one.pass.grants_taken();
    check_delete(&rt, &tree, &mut one, 20, deleted(20, 20, 36));
    check_grants(&rt, &one, before, 0, 0, 2);
    check_delete(&rt, &tree, &mut one, 20, missing(20, 37));
    check_grants(&rt, &one, before, 0, 0, 3);
    check_insert(&rt, &tree, &mut one, 20, 7, inserted(20, 7, 37));
    check_grants(&rt, &one, before, 0, 0, 5);
    let new = looked_up(20, Reply::Found { value: 7 }, 38);
    check_get(&rt, &tree, &mut one, 20, new);
    check_grants(&rt, &one, before, 1, 0, 5);
    check_steps(&rt, &one, Some((268, 3)), Some((268, 3)));
    leave(&mut tree, one);
    discard(&rt, tree);
}

// The root is the one leaf. It may get as short as it will.
#[test]
fn a_right_guess_changes_the_root(rt: HostRuntime) {
    let mut tree = open_guessed(&rt, rt.alloc());
    let mut one = come_guessing(&rt, rt.alloc(), &mut tree);
    insert_up_to(&rt, &tree.index, &mut one.pass, 3);
    check_get(&rt, &tree, &mut one, 2, found(2, 3));
    check_steps(&rt, &one, Some((250, 0)), Some((250, 1)));
    let before = one.pass.grants_taken();
    check_delete(&rt, &tree, &mut one, 2, deleted(2, 2, 3));
    check_insert(&rt, &tree, &mut one, 2, 2, inserted(2, 2, 4));
    check_grants(&rt, &one, before, 0, 0, 4);
    leave(&mut tree, one);
    discard(&rt, tree);
}

// The root has 35 records, and the key 35 lies between two of them.
#[test]
fn a_full_leaf_needs_the_tree_for_a_new_key(rt: HostRuntime) {
    let mut tree = open_guessed(&rt, rt.alloc());
    let mut one = come_guessing(&rt, rt.alloc(), &mut tree);
    insert_up_to(&rt, &tree.index, &mut one.pass, 34);
    assert_eq!(rt;
        insert(&rt, &tree.index, &mut one.pass, 36, 36),
        inserted(36, 36, 34)
    );
    check_get(&rt, &tree, &mut one, 3, found(3, 35));
    let none = looked_up(35, Reply::NotFound, 35);
    check_get(&rt, &tree, &mut one, 35, none);
    check_steps(&rt, &one, Some((283, 0)), Some((283, 1)));
    let before = one.pass.grants_taken();
    check_get(&rt, &tree, &mut one, 35, none);
    check_grants(&rt, &one, before, 1, 0, 0);
    let answer = insert_by(&rt, &tree, &mut one, 35, 35);
    check_need(&rt, answer, 1);
    check_grants(&rt, &one, before, 1, 0, 1);
    let there = Record {
        call: Call::Insert {
            key: Key::of_number(3),
            value: 9,
        },
        reply: Reply::Duplicate,
        place: 35,
    };
    check_insert(&rt, &tree, &mut one, 3, 9, there);
    check_grants(&rt, &one, before, 1, 0, 2);
    leave(&mut tree, one);
    discard(&rt, tree);
}

// The key's leaf is the one that is guessed, but its records do not tell that.
#[test]
fn a_key_outside_the_records_makes_a_guess_wrong(rt: HostRuntime) {
    let mut tree = open_guessed(&rt, rt.alloc());
    let mut one = come_guessing(&rt, rt.alloc(), &mut tree);
    insert_up_to(&rt, &tree.index, &mut one.pass, 3);
    let none = looked_up(40, Reply::NotFound, 3);
    check_get(&rt, &tree, &mut one, 40, none);
    check_steps(&rt, &one, Some((288, 0)), Some((288, 1)));
    let before = one.pass.grants_taken();
    check_get(&rt, &tree, &mut one, 40, none);
    check_grants(&rt, &one, before, 3, 0, 0);
    let answer = insert_by(&rt, &tree, &mut one, 40, 40);
    check_wrong(&rt, answer, 1);
    check_grants(&rt, &one, before, 3, 0, 1);
    check_steps(&rt, &one, Some((288, 1)), Some((288, 1)));
    leave(&mut tree, one);
    discard(&rt, tree);
}

// What one session left, another finds. The passes that were drawn stay counted when they are given back.
#[test]
fn a_guess_serves_every_session(rt: HostRuntime) {
    let mut tree = open_guessed(&rt, rt.alloc());
    assert_eq!(rt; tree.guesses.drawn(), 0);
    let mut one = come_guessing(&rt, rt.alloc(), &mut tree);
    assert_eq!(rt; tree.guesses.drawn(), 1);
    let mut two = come_guessing(&rt, rt.alloc(), &mut tree);
    assert_eq!(rt; tree.guesses.drawn(), 2);
    insert_up_to(&rt, &tree.index, &mut one.pass, 36);
    check_get(&rt, &tree, &mut one, 5, found(5, 36));
    check_steps(&rt, &one, Some((253, 0)), Some((253, 2)));
    leave(&mut tree, one);
    assert_eq!(rt; tree.guesses.drawn(), 2);
    let before = two.pass.grants_taken();
    check_get(&rt, &tree, &mut two, 5, found(5, 36));
    check_grants(&rt, &two, before, 1, 0, 0);
    check_steps(&rt, &two, Some((253, 2)), None);
    leave(&mut tree, two);
    assert_eq!(rt; tree.guesses.drawn(), 2);
    discard(&rt, tree);
}
