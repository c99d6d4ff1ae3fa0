//! The insert of a pair into both trees.

ghost use Rattle.std.specs.Prelude.{◌≡◌, ◌+◌, ◌≤◌, false, IfErr, IfOk, MatchResult};
ghost use Rattle.ib_map.specs.Keys.{MapKey};
ghost use Rattle.ib_map.specs.declared.call.Call.TheVariants.{Insert as InsertCall};
ghost use Rattle.ib_second_key.specs.SecondKeys.{IsPrimary};
ghost use Rattle.ib_page.specs.declared.path.TheConstants.{MOST_PATH};
ghost use Rattle.ib_walk.specs.Full.{is_too_high, need_of};
ghost use Rattle.ib_plans.specs.declared.fault.TreeFault.{TreeFault};
ghost use Rattle.ib_pair_change.specs.PairPlans.{TooHighForPair};
ghost use Rattle.ib_rule.specs.Conditions.{HasGrantsLeft};
ghost use Rattle.ib_rule.specs.Pass.{IsAtRest, PassState};
ghost use Rattle.ib_rule.specs.Views.{is_watched};
ghost use Rattle.ib_cursor.specs.Descent.{MayDescend};
ghost use Rattle.ib_mtr.specs.Mtr.{IsMtr, IsStillMtr};
ghost use Rattle.ib_leaf.specs.Calls.{MayCall};
ghost use Rattle.ib_second.specs.Calls.{HasCalledPair, TakesForChange};
ghost use Rattle.ib_second.specs.PairComes.{HasComeToPair, HasRefused, HasTakenAll};
ghost use Rattle.ib_second.specs.PairReady.{pages_seen};

use crate::fresh::take_fresh;
use crate::pages::{PairWork, claim_paths};
use crate::planned::plan_insert_in;
use ib_latch::{Latches, Parkers};
use ib_leaf::{changed, facts_of_session, value_in};
use ib_map::{Call, Change, Key, Record, Reply};
use ib_mtr::Mtr;
use ib_pair_change::{FreshPages, Needs, PairPaths, pair_pages_needed};
use ib_pair_law::PairLaw;
use ib_plans::TreeFault;
use ib_rule::Pass;
use ib_second_key::second_key;
use std::sync::Wait;

// How many pages both inserts take.
fn needed(mtr: &mut PairWork<'_>, paths: &PairPaths) -> Result<Needs, TreeFault>
    requires mtr { IsMtr mtr.old.latches.now mtr.old.pass.now }
    requires ready { (key : MapKey) × (other_key : MapKey) × (before : PassState)
        × HasComeToPair mtr.old.latches.now.sizes key paths.now.first other_key paths.now.second before mtr.old.pass.now }
    ensures still { IsStillMtr mtr.old mtr.new }
    ensures pass { mtr.new.pass ≡ mtr.old.pass }
    ensures needed { (key other_key : MapKey) (before : PassState)
        → HasComeToPair mtr.old.latches.now.sizes key paths.now.first other_key paths.now.second before mtr.old.pass.now
        → MatchResult result (λ needs. (is_too_high 2 (pages_seen mtr.old.latches.now.sizes mtr.old.pass.now) key 1 ≡ false)
        × (is_too_high 2 (pages_seen mtr.old.latches.now.sizes mtr.old.pass.now) other_key 2 ≡ false)
        × (needs.first ≡ need_of (pages_seen mtr.old.latches.now.sizes mtr.old.pass.now) key 1)
        × (needs.second ≡ need_of (pages_seen mtr.old.latches.now.sizes mtr.old.pass.now) other_key 2)
        × (needs.first + needs.second ≤ MOST_PATH))
        (λ fault. TooHighForPair (pages_seen mtr.old.latches.now.sizes mtr.old.pass.now) key other_key × (fault ≡ TreeFault.TooHigh)) }
    ensures few { IfOk result (λ needs. needs.first + needs.second ≤ MOST_PATH) }
{
    // For the proof: a space has a number of pages of which the laws speak.
    let _ = mtr.geometry().pages();
    pair_pages_needed(mtr.work(), paths)
}

// The pages that an insert of a pair reads and writes in both trees.
#[derive(Drop)]
struct PairPages {
    paths: PairPaths,
    fresh: FreshPages,
}

// Takes all pages that the insert reads and writes, or tells why it is refused.
fn take_pages<R: Wait>(
    rt: &R,
    mtr: &mut PairWork<'_>,
    key: Key,
    value: u64,
) -> Result<PairPages, Reply>
    requires may { MayDescend mtr.old.latches.now mtr.old.pass.now }
    requires unwatched { is_watched 1 mtr.old.pass.now.view.memory.since ≡ false }
    requires room { HasGrantsLeft 128 mtr.old.pass.now.view }
    requires primary { IsPrimary key }
    ensures still { IsStillMtr mtr.old mtr.new }
    ensures taken { IfOk result (λ pages. HasTakenAll mtr.old.latches.now.sizes key value
        pages.paths.first pages.paths.second pages.fresh.first pages.fresh.second mtr.old.pass.now mtr.new.pass.now) }
    ensures refused { IfErr result (λ reply. HasRefused mtr.old.latches.now.sizes key value reply mtr.old.pass.now mtr.new.pass.now) }
{
    let paths = claim_paths(rt, mtr, key, second_key(key, value));
    facts_of_session(mtr);
    if value_in(mtr, &paths.first, key).is_some() {
        return Err(Reply::Duplicate);
    }
    let Ok(need) = needed(mtr, &paths) else {
        return Err(Reply::TooHigh);
    };
    match take_fresh(rt, mtr, need) {
        Ok(fresh) => Ok(PairPages { paths, fresh }),
        Err(free) => Err(Reply::SpaceFull {
            free,
            need: need.first + need.second,
        }),
    }
}

/// The insert of a pair (row0ins, `row_ins`; btr0cur, `btr_cur_pessimistic_insert` for both trees): one mini-transaction, one
/// entry.
pub(crate) fn insert<R: Wait>(
    rt: &R,
    latches: &Latches<PairLaw, Parkers>,
    pass: &mut Pass,
    key: Key,
    value: u64,
) -> Record
    requires may { MayCall latches.now pass.old }
    requires primary { IsPrimary key }
    ensures rest { IsAtRest latches.now pass.new }
    ensures called { HasCalledPair latches.now.sizes (InsertCall key value) result pass.old pass.new }
    ensures grants { TakesForChange 31 pass.old pass.new }
{
    let call = Call::Insert { key, value };
    // For the proof: a session that holds nothing watches no latch.
    let _ = pass.is_idle();
    let mut mtr = Mtr::start(latches, pass);
    let pages = match take_pages(rt, &mut mtr, key, value) {
        Ok(pages) => pages,
        Err(reply) => {
            facts_of_session(&mtr);
            let place = mtr.commit_read();
            return Record { call, reply, place };
        }
    };
    facts_of_session(&mtr);
    plan_insert_in(&mut mtr, &pages.paths, &pages.fresh, key, value);
    let committed = mtr.commit(rt, Change::Insert { key, value });
    changed(call, Reply::Inserted, committed, pass.place())
}
