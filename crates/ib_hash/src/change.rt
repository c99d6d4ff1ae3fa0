//! Changes by guesses.

ghost use Rattle.std.specs.Prelude.{◌≡◌, ◌≢◌, ◌<◌};
ghost use Rattle.ib_map.specs.declared.call.Call.TheVariants.{Insert as InsertCall, Delete as DeleteCall};
ghost use Rattle.ib_mtr.specs.Mtr.{IsStillMtr};
ghost use Rattle.ib_cursor.specs.Descent.{MayDescend};
ghost use Rattle.ib_rule.specs.Pass.{IsAtRest};
ghost use Rattle.ib_leaf.specs.Leaf.{IsFullFor, IsShortFor};
ghost use Rattle.ib_leaf.specs.Under.{under_plans};
ghost use Rattle.ib_hash.specs.Calls.{MayGuess, MayTry};
ghost use Rattle.ib_hash.specs.Right.{is_right};
ghost use Rattle.ib_hash.specs.Tries.{HasClaimedGuess, HasTried, TriedBy};

use crate::guesses::Guesses;
use crate::miss::Miss;
use crate::pass::GuessPass;
use crate::slots::slot_of;
use ib_cursor::{key_standing, latch_guess, read};
use ib_latch::{Latches, Parkers};
use ib_leaf::{ROOT, Work, changed, facts_of_session, look_in, put_in, take_out};
use ib_levels::Mode;
use ib_map::{Call, Change, Key, Record, Reply};
use ib_mtr::Mtr;
use ib_page::{KeyStanding, MOST_RECORDS};
use ib_planned_log::KeptLaw;
use ib_plans::FEWEST_RECORDS;
use ib_rule::Pass;
use std::sync::Wait;

// Whether a guess is right, by where the key stands on its page.
fn is_right(standing: Option<KeyStanding>) -> bool
    ensures { result ≡ is_right standing }
{
    match standing {
        Some(KeyStanding::Found(_)) => true,
        Some(KeyStanding::Between) => true,
        Some(KeyStanding::Outside) => false,
        None => false,
    }
}

// Takes a page that was guessed in X, and tests it where it lies. Where the guess is right the page is loaded.
fn claim_guess<R: Wait>(rt: &R, mtr: &mut Work<'_>, page: u32, key: Key) -> bool
    requires may { MayDescend mtr.old.latches.now mtr.old.pass.now }
    requires some { page ≢ 0 }
    requires inside { page < mtr.old.latches.now.sizes.pages }
    ensures still { IsStillMtr mtr.old mtr.new }
    ensures claimed { under_plans mtr.old.latches.now HasClaimedGuess key page result
        mtr.old.pass.now mtr.new.pass.now }
{
    latch_guess(rt, mtr, page, Mode::X);
    if !is_right(key_standing(mtr, page, key)) {
        facts_of_session(mtr);
        return false;
    }
    read(mtr, page);
    facts_of_session(mtr);
    true
}

// The insert into a page that was guessed.
fn insert_by_guess<R: Wait>(
    rt: &R,
    latches: &Latches<KeptLaw, Parkers>,
    pass: &mut Pass,
    page: u32,
    key: Key,
    value: u64,
) -> Result<Record, Miss>
    requires may { MayTry latches.now page pass.old }
    ensures rest { IsAtRest latches.now pass.new }
    ensures tried { under_plans latches.now TriedBy (IsFullFor key) key (InsertCall key value) page
        result pass.old pass.new }
{
    let call = Call::Insert { key, value };
    let mut mtr = Mtr::start(latches, pass);
    if !claim_guess(rt, &mut mtr, page, key) {
        let _ = mtr.commit_read();
        return Err(Miss::Wrong { page });
    }
    let looked = look_in(&mtr, page, key);
    if looked.value.is_some() {
        let place = mtr.commit_read();
        return Ok(Record {
            call,
            reply: Reply::Duplicate,
            place,
        });
    }
    if looked.count == MOST_RECORDS {
        let _ = mtr.commit_read();
        return Err(Miss::NeedsTree { page });
    }
    put_in(&mut mtr, page, key, value);
    let committed = mtr.commit(rt, Change::Insert { key, value });
    Ok(changed(call, Reply::Inserted, committed, pass.place()))
}

// The delete from a page that was guessed.
fn delete_by_guess<R: Wait>(
    rt: &R,
    latches: &Latches<KeptLaw, Parkers>,
    pass: &mut Pass,
    page: u32,
    key: Key,
) -> Result<Record, Miss>
    requires may { MayTry latches.now page pass.old }
    ensures rest { IsAtRest latches.now pass.new }
    ensures tried { under_plans latches.now TriedBy (IsShortFor key) key (DeleteCall key) page result
        pass.old pass.new }
{
    let call = Call::Delete { key };
    let mut mtr = Mtr::start(latches, pass);
    if !claim_guess(rt, &mut mtr, page, key) {
        let _ = mtr.commit_read();
        return Err(Miss::Wrong { page });
    }
    let looked = look_in(&mtr, page, key);
    let Some(value) = looked.value else {
        let place = mtr.commit_read();
        return Ok(Record {
            call,
            reply: Reply::Missing,
            place,
        });
    };
    if page != ROOT && looked.count <= FEWEST_RECORDS {
        let _ = mtr.commit_read();
        return Err(Miss::NeedsTree { page });
    }
    take_out(&mut mtr, page, key);
    let committed = mtr.commit(rt, Change::Delete { key });
    Ok(changed(call, Reply::Deleted { value }, committed, pass.place()))
}

/// Puts a pair in by the guess of the key's slot, without a descent, as `Index::insert` answers it
/// (`btr_cur_search_to_nth_level` with `BTR_MODIFY_LEAF`, which asks `btr_search_guess_on_hash` first): under X on the
/// page that was guessed, and X on the log latch where the change comes as far as the log. `NoGuess` exactly where the
/// slot has no guess, `Wrong` where the guess is not right, `NeedsTree` where it is right, but its leaf is full and does
/// not have the key. The session holds nothing before and after.
///
/// ```
/// let answer = match try_insert(rt, &guesses, index.latches(), &mut gp, &mut pass, key, 70) {
///     Ok(answer) => answer,
///     Err(_) => index.insert(rt, &mut pass, key, 70),
/// };
/// ```
pub fn try_insert<R: Wait>(
    rt: &R,
    guesses: &Guesses,
    latches: &Latches<KeptLaw, Parkers>,
    gp: &mut GuessPass,
    pass: &mut Pass,
    key: Key,
    value: u64,
) -> Result<Record, Miss>
    requires may { MayGuess guesses.now latches.now gp.old pass.old }
    ensures rest { IsAtRest latches.now pass.new }
    ensures tried { under_plans latches.now HasTried (IsFullFor key) key (InsertCall key value)
        result gp.old gp.new pass.old pass.new }
{
    let page = guesses.load_guess(gp, slot_of(key));
    if page == 0 {
        return Err(Miss::NoGuess);
    }
    insert_by_guess(rt, latches, pass, page, key, value)
}

/// Takes a key out by the guess of its slot, without a descent, as `Index::delete` answers it. The grants and the
/// misses are those of `try_insert`, but `NeedsTree` comes where the leaf has the key, is not the root, and has 17
/// records or fewer.
///
/// ```
/// let answer = match try_delete(rt, &guesses, index.latches(), &mut gp, &mut pass, key) {
///     Ok(answer) => answer,
///     Err(_) => index.delete(rt, &mut pass, key),
/// };
/// ```
pub fn try_delete<R: Wait>(
    rt: &R,
    guesses: &Guesses,
    latches: &Latches<KeptLaw, Parkers>,
    gp: &mut GuessPass,
    pass: &mut Pass,
    key: Key,
) -> Result<Record, Miss>
    requires may { MayGuess guesses.now latches.now gp.old pass.old }
    ensures rest { IsAtRest latches.now pass.new }
    ensures tried { under_plans latches.now HasTried (IsShortFor key) key (DeleteCall key) result
        gp.old gp.new pass.old pass.new }
{
    let page = guesses.load_guess(gp, slot_of(key));
    if page == 0 {
        return Err(Miss::NoGuess);
    }
    delete_by_guess(rt, latches, pass, page, key)
}
