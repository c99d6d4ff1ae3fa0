//! Lookups by guesses.

ghost use Rattle.std.specs.Prelude.{◌≡◌, ◌<◌, true, MatchOption};
ghost use Rattle.ib_map.specs.Map.{lookup_answer};
ghost use Rattle.ib_map.specs.Space.{has_pages};
ghost use Rattle.ib_rule.specs.Conditions.{HasGrantsLeft};
ghost use Rattle.ib_rule.specs.Pass.{IsAtRest};
ghost use Rattle.ib_leaf.specs.Calls.{MayCall};
ghost use Rattle.ib_leaf.specs.Under.{under_plans};
ghost use Rattle.ib_hash.specs.Calls.{MayGuess, MayTry};
ghost use Rattle.ib_hash.specs.Lookups.{HasGot, HasLookedByDescent, HasLookedByGuess, HasMissed, HasNotLooked, reply_for};

use crate::guesses::Guesses;
use crate::pass::GuessPass;
use crate::slots::slot_of;
use ib_cursor::{find_leaf, key_standing, latch_guess};
use ib_latch::{Latches, Parkers};
use ib_leaf::facts_of_session;
use ib_levels::Mode;
use ib_map::{Call, Key, Record, Reply};
use ib_mtr::Mtr;
use ib_page::KeyStanding;
use ib_planned_log::KeptLaw;
use ib_rule::Pass;
use std::sync::Wait;

// The reply to a lookup, by where the key stands on the page that was guessed. None where the guess is wrong.
fn reply_by(standing: Option<KeyStanding>) -> Option<Reply>
    ensures { result ≡ reply_for standing }
{
    match standing {
        Some(KeyStanding::Found(value)) => Some(Reply::Found { value }),
        Some(KeyStanding::Between) => Some(Reply::NotFound),
        Some(KeyStanding::Outside) => None,
        None => None,
    }
}

// The reply to a lookup that found this value.
fn reply_of(value: Option<u64>) -> Reply
    ensures { result ≡ lookup_answer value }
{
    match value {
        Some(value) => Reply::Found { value },
        None => Reply::NotFound,
    }
}

// Looks a key up on a page that was guessed, where the page lies. None where the guess is wrong.
fn get_by_guess<R: Wait>(
    rt: &R,
    latches: &Latches<KeptLaw, Parkers>,
    pass: &mut Pass,
    page: u32,
    key: Key,
) -> Option<Record>
    requires may { MayTry latches.now page pass.old }
    ensures rest { IsAtRest latches.now pass.new }
    ensures looked { MatchOption result (HasMissed latches.now.sizes key page pass.old pass.new)
        (λ answer. under_plans latches.now HasLookedByGuess key page answer pass.old pass.new) }
{
    let mut mtr = Mtr::start(latches, pass);
    latch_guess(rt, &mut mtr, page, Mode::S);
    facts_of_session(&mtr);
    let Some(reply) = reply_by(key_standing(&mut mtr, page, key)) else {
        let _ = mtr.commit_read();
        return None;
    };
    let place = mtr.commit_read();
    Some(Record {
        call: Call::Get { key },
        reply,
        place,
    })
}

// The same, or none where there is no guess.
fn get_if_guessed<R: Wait>(
    rt: &R,
    latches: &Latches<KeptLaw, Parkers>,
    pass: &mut Pass,
    page: u32,
    key: Key,
) -> Option<Record>
    requires may { MayCall latches.now pass.old }
    requires inside { page < latches.now.sizes.pages }
    ensures rest { IsAtRest latches.now pass.new }
    ensures room { HasGrantsLeft 64 pass.new.view }
    ensures looked { MatchOption result (HasNotLooked latches.now.sizes key page pass.old pass.new)
        (λ answer. under_plans latches.now HasLookedByGuess key page answer pass.old pass.new) }
{
    if page == 0 {
        return None;
    }
    get_by_guess(rt, latches, pass, page, key)
}

// What a descent came to: the key's leaf, and the answer.
struct Descended {
    leaf: u32,
    answer: Record,
}

// Looks a key up by a descent.
fn get_by_descent<R: Wait>(
    rt: &R,
    latches: &Latches<KeptLaw, Parkers>,
    pass: &mut Pass,
    key: Key,
) -> Descended
    requires rest { IsAtRest latches.now pass.old }
    requires room { HasGrantsLeft 64 pass.old.view }
    ensures rest { IsAtRest latches.now pass.new }
    ensures space { has_pages latches.now.sizes.pages ≡ true }
    ensures looked { under_plans latches.now HasLookedByDescent key result.leaf result.answer pass.old
        pass.new }
{
    let mut mtr = Mtr::start(latches, pass);
    let found = find_leaf(rt, &mut mtr, key);
    facts_of_session(&mtr);
    let reply = reply_of(found.value);
    let place = mtr.commit_read();
    Descended {
        leaf: found.leaf,
        answer: Record {
            call: Call::Get { key },
            reply,
            place,
        },
    }
}

/// Looks a key up, as `Index::get` answers it (`btr_cur_search_to_nth_level` with `BTR_SEARCH_LEAF`, which asks
/// `btr_search_guess_on_hash` first): by the guess of the key's slot where that is right, under one S, and the page is
/// searched where it lies. Else by a descent, under ten S at most, which leaves the key's leaf as the guess
/// (`btr_search_info_update`). The session holds nothing before and after.
///
/// ```
/// if pass.may_call() {
///     let answer = get(rt, &guesses, index.latches(), &mut gp, &mut pass, key);
///     found = answer.reply == Reply::Found { value: 70 };
/// }
/// ```
pub fn get<R: Wait>(
    rt: &R,
    guesses: &Guesses,
    latches: &Latches<KeptLaw, Parkers>,
    gp: &mut GuessPass,
    pass: &mut Pass,
    key: Key,
) -> Record
    requires may { MayGuess guesses.now latches.now gp.old pass.old }
    ensures rest { IsAtRest latches.now pass.new }
    ensures got { under_plans latches.now HasGot key result gp.old gp.new pass.old pass.new }
{
    let slot = slot_of(key);
    let page = guesses.load_guess(gp, slot);
    if let Some(answer) = get_if_guessed(rt, latches, pass, page, key) {
        return answer;
    }
    let Descended { leaf, answer } = get_by_descent(rt, latches, pass, key);
    guesses.store_guess(gp, slot, leaf);
    answer
}
