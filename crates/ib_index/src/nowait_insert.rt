//! The insert that changes the tree's structure, without waiting.

ghost use Rattle.std.specs.Prelude.{◌≡◌, ℕ, ◌+◌, ◌<◌, ◌≤◌, List, [], ◌∷◌, ◌++◌, None, length, false, IfOk, IfErr, OnOk};
ghost use Rattle.ib_map.specs.Keys.{MapKey};
ghost use Rattle.ib_map.specs.declared.call.Call.TheVariants.{Insert as InsertCall};
ghost use Rattle.ib_core.specs.Holders.{CanWish};
ghost use Rattle.ib_levels.specs.declared.level.Level.{Level as LevelValue};
ghost use Rattle.ib_levels.specs.declared.level.Level.TheVariants.{Space};
ghost use Rattle.ib_levels.specs.declared.level.Mode.TheVariants.{X as ModeX};
ghost use Rattle.ib_page.specs.Work.{changed_of};
ghost use Rattle.ib_page.specs.declared.path.TheConstants.{MOST_PATH};
ghost use Rattle.ib_page.specs.declared.work.TheConstants.{MOST_WORK_PAGES};
ghost use Rattle.ib_tree.specs.PageLists.{AreOnce, is_listed};
ghost use Rattle.ib_planned_log.specs.Kept.{IsKeptLog};
ghost use Rattle.ib_rule.specs.Conditions.{HasGrantLeft, HasGrantsLeft, MayGrow};
ghost use Rattle.ib_rule.specs.Pass.{IsAtRest, PassState};
ghost use Rattle.ib_mtr.specs.Mtr.{IsMtr, IsStillMtr};
ghost use Rattle.ib_cursor.specs.Descent.{MayDescend};
ghost use Rattle.ib_cursor.specs.Refusals.{AreFewGrants, AreFewLooks, IsInsertRefused, IsVainTry};
ghost use Rattle.ib_leaf.specs.Under.{under_plans};
ghost use Rattle.ib_index.specs.Grows.{HasChangedTree, HasClaimedPath, HasGrown, HasTakenNew, HoldsAllPages, IsGrowing, MayChangeTree, NeedsPages, pages_held, space_pages, tree_pages};
ghost use Rattle.ib_index.specs.NowaitGrows.{HasNotTakenFresh, IsNewRefused};
ghost use Rattle.ib_index.specs.Refusals.{IsContended, TakesToInsert, most_to_insert};

use crate::log_end::at_log;
use crate::pessimistic_insert::{choose, free_pages, needed, plan_in};
use ib_cursor::{NowaitFault, descend_to_insert_nowait, read, try_take};
use ib_latch::{Latches, Sleep};
use ib_leaf::{ROOT, changed, facts_of_session, value_in};
use ib_levels::{Latch, Level, Mode};
use ib_map::{Call, Change, Key, Record, Reply};
use ib_mtr::Mtr;
use ib_page::Path;
use ib_planned_log::KeptLaw;
use ib_rule::Pass;

// Claims the key's path by tries: the index is claimed, and the pages of the path and the leaves beside the
// key's leaf are held in X, and loaded. Where a latch is refused, nothing is held.
fn try_path<S: Sleep>(mtr: &mut Mtr<'_, KeptLaw, S>, key: Key) -> Result<Path, NowaitFault>
    requires may { MayDescend mtr.old.latches.now mtr.old.pass.now }
    requires unwatched { mtr.old.pass.now.view.memory.since ≡ [] }
    ensures still { IsStillMtr mtr.old mtr.new }
    ensures reached { IfOk result (λ path. HasClaimedPath mtr.old.latches.now.sizes key path mtr.old.pass.now mtr.new.pass.now) }
    ensures grants { OnOk result (AreFewGrants (record { s = 8; sx = 1; x = 10 }) mtr.old.pass.now.view mtr.new.pass.now.view) }
    ensures twice { OnOk result (AreFewLooks 0 mtr.old.pass.now.view mtr.new.pass.now.view) }
    ensures refused { IfErr result (λ fault. under_plans mtr.old.latches.now IsInsertRefused 1 key fault mtr.old.pass.now mtr.new.pass.now) }
{
    // For the proof: a space has a number of pages of which the laws speak.
    let _ = mtr.geometry().pages();
    match descend_to_insert_nowait(mtr, ROOT, key) {
        Ok(path) => Ok(path),
        Err(fault) => Err(fault),
    }
}

// Tries a page in X at a level, and loads it. Where it is refused, those that are held are as they were.
fn try_at<S: Sleep>(
    mtr: &mut Mtr<'_, KeptLaw, S>,
    page: u32,
    level: Level,
) -> Result<(), NowaitFault>
    requires mtr { IsMtr mtr.old.latches.now mtr.old.pass.now }
    requires page { page < mtr.old.latches.now.sizes.pages }
    requires grows { MayGrow mtr.old.pass.now.view }
    requires may { CanWish (page + 2) level mtr.old.pass.now.view.session }
    requires absent { changed_of page mtr.old.pass.now.work ≡ None }
    requires few { length mtr.old.pass.now.work < MOST_WORK_PAGES }
    ensures still { IsStillMtr mtr.old mtr.new }
    ensures grown { OnOk result ((key : MapKey) → (path : List ℕ) → (held : List (ℕ × LevelValue))
        → IsGrowing mtr.old.latches.now.sizes key path held mtr.old.pass.now
        → is_listed (pages_held held) page ≡ false
        → HasGrown mtr.old.latches.now.sizes key path held page level mtr.old.pass.now mtr.new.pass.now) }
    ensures twice { OnOk result (AreFewLooks 0 mtr.old.pass.now.view mtr.new.pass.now.view) }
    ensures vain { IfErr result (λ fault. IsVainTry mtr.old.latches.now.sizes (IsKeptLog mtr.old.latches.now.sizes.pages) ModeX (page + 2) fault mtr.old.pass.now mtr.new.pass.now) }
    ensures kept { IfErr result (λ _. (key : MapKey) → (path : List ℕ) → (held : List (ℕ × LevelValue))
        → IsGrowing mtr.old.latches.now.sizes key path held mtr.old.pass.now
        → IsGrowing mtr.old.latches.now.sizes key path held mtr.new.pass.now) }
{
    // For the proof: a space has a number of pages of which the laws speak.
    let _ = mtr.geometry().pages();
    match try_take(mtr, Latch::page(page), Mode::X, level) {
        Ok(()) => {
            read(mtr, page);
            Ok(())
        }
        Err(fault) => Err(fault),
    }
}

// Tries page 0 behind the pages of the tree.
pub(crate) fn try_space<S: Sleep>(mtr: &mut Mtr<'_, KeptLaw, S>) -> Result<(), NowaitFault>
    requires mtr { IsMtr mtr.old.latches.now mtr.old.pass.now }
    requires room { HasGrantLeft mtr.old.pass.now.view }
    requires ready { (key : MapKey) × (path : List ℕ) × (held : List ℕ)
        × IsGrowing mtr.old.latches.now.sizes key path (tree_pages held) mtr.old.pass.now
        × (is_listed held 0 ≡ false) × (length held ≤ 23) }
    ensures still { IsStillMtr mtr.old mtr.new }
    ensures grown { OnOk result ((key : MapKey) → (path : List ℕ) → (held : List ℕ)
        → IsGrowing mtr.old.latches.now.sizes key path (tree_pages held) mtr.old.pass.now → is_listed held 0 ≡ false
        → HasGrown mtr.old.latches.now.sizes key path (tree_pages held) 0 Space mtr.old.pass.now mtr.new.pass.now) }
    ensures twice { OnOk result (AreFewLooks 0 mtr.old.pass.now.view mtr.new.pass.now.view) }
    ensures vain { IfErr result (λ fault. IsVainTry mtr.old.latches.now.sizes (IsKeptLog mtr.old.latches.now.sizes.pages) ModeX 2 fault mtr.old.pass.now mtr.new.pass.now) }
{
    // For the proof: a space has a number of pages of which the laws speak.
    let _ = mtr.geometry().pages();
    match try_at(mtr, 0, Level::Space) {
        Ok(()) => Ok(()),
        Err(fault) => Err(fault),
    }
}

// Tries the fresh pages behind page 0.
fn try_new<S: Sleep>(mtr: &mut Mtr<'_, KeptLaw, S>, fresh: &Path) -> Result<(), NowaitFault>
    requires mtr { IsMtr mtr.old.latches.now mtr.old.pass.now }
    requires room { HasGrantsLeft 16 mtr.old.pass.now.view }
    requires ready { (key : MapKey) × (path : List ℕ) × (held : List ℕ)
        × IsGrowing mtr.old.latches.now.sizes key path (space_pages held) mtr.old.pass.now
        × AreOnce (held ++ 0 ∷ fresh.now) mtr.old.latches.now.sizes.pages × (length held ≤ 10) }
    ensures still { IsStillMtr mtr.old mtr.new }
    ensures taken { OnOk result ((key : MapKey) → (path held : List ℕ)
        → IsGrowing mtr.old.latches.now.sizes key path (space_pages held) mtr.old.pass.now
        → AreOnce (held ++ 0 ∷ fresh.now) mtr.old.latches.now.sizes.pages
        → HasTakenNew mtr.old.latches.now.sizes key path (space_pages held) fresh.now mtr.old.pass.now mtr.new.pass.now) }
    ensures grants { OnOk result (AreFewGrants (record { s = 0; sx = 0; x = length fresh.now }) mtr.old.pass.now.view mtr.new.pass.now.view) }
    ensures twice { OnOk result (AreFewLooks 0 mtr.old.pass.now.view mtr.new.pass.now.view) }
    ensures refused { IfErr result (λ fault. (key : MapKey) → (path held : List ℕ)
        → IsGrowing mtr.old.latches.now.sizes key path (space_pages held) mtr.old.pass.now
        → AreOnce (held ++ 0 ∷ fresh.now) mtr.old.latches.now.sizes.pages
        → IsNewRefused mtr.old.latches.now.sizes key path fresh.now fault mtr.old.pass.now mtr.new.pass.now) }
{
    let pages = fresh.pages();
    let mut at = 0;
    while at < pages.len() {
        match try_at(mtr, pages[at], Level::PageNew) {
            Ok(()) => at += 1,
            Err(fault) => return Err(fault),
        }
    }
    Ok(())
}

/// Why the fresh pages of an insert were not had.
#[derive(Clone, Copy)]
pub(crate) enum FreshFault {
    /// So many pages are free, and these are too few.
    Short(u32),
    /// The latch of page 0 or of one of the fresh pages was refused.
    Refused(NowaitFault),
}

// Tries the fresh pages that the insert needs, with page 0 before them.
fn try_fresh<S: Sleep>(
    mtr: &mut Mtr<'_, KeptLaw, S>,
    path: &Path,
    need: u32,
) -> Result<Path, FreshFault>
    requires mtr { IsMtr mtr.old.latches.now mtr.old.pass.now }
    requires ready { (key : MapKey) × (p : PassState)
        × HasClaimedPath mtr.old.latches.now.sizes key path.now p mtr.old.pass.now }
    requires few { need ≤ MOST_PATH }
    requires room { HasGrantsLeft 64 mtr.old.pass.now.view }
    ensures still { IsStillMtr mtr.old mtr.new }
    ensures taken { IfOk result (λ fresh. (key : MapKey) → (p : PassState)
        → HasClaimedPath mtr.old.latches.now.sizes key path.now p mtr.old.pass.now
        → NeedsPages mtr.old.latches.now.sizes.pages key path.now need mtr.old.pass.now.work
        → HoldsAllPages mtr.old.latches.now.sizes key path.now fresh mtr.old.pass.now mtr.new.pass.now) }
    ensures grants { OnOk result (AreFewGrants (record { s = 0; sx = 0; x = 9 }) mtr.old.pass.now.view mtr.new.pass.now.view) }
    ensures twice { OnOk result (AreFewLooks 0 mtr.old.pass.now.view mtr.new.pass.now.view) }
    ensures short { IfErr result (λ fault. (free : ℕ) → fault ≡ FreshFault.Short free → AreFewLooks 0 mtr.old.pass.now.view mtr.new.pass.now.view) }
    ensures not_taken { IfErr result (λ fault. (key : MapKey) → (p : PassState)
        → HasClaimedPath mtr.old.latches.now.sizes key path.now p mtr.old.pass.now
        → NeedsPages mtr.old.latches.now.sizes.pages key path.now need mtr.old.pass.now.work
        → HasNotTakenFresh mtr.old.latches.now.sizes key path.now need fault mtr.old.pass.now mtr.new.pass.now) }
{
    if need == 0 {
        return Ok(Path::new());
    }
    // For the proof: a space has a number of pages of which the laws speak.
    let _ = mtr.geometry().pages();
    match try_space(mtr) {
        Ok(()) => {}
        Err(fault) => return Err(FreshFault::Refused(fault)),
    }
    let fresh = match choose(mtr, need) {
        Ok(fresh) => fresh,
        Err(fault) => return Err(FreshFault::Short(free_pages(fault))),
    };
    match try_new(mtr, &fresh) {
        Ok(()) => Ok(fresh),
        Err(fault) => Err(FreshFault::Refused(fault)),
    }
}

/// The insert that may change the tree's structure, as `pessimistic_insert`, by tries.
pub(crate) fn pessimistic_insert_nowait<S: Sleep>(
    latches: &Latches<KeptLaw, S>,
    pass: &mut Pass,
    key: Key,
    value: u64,
) -> Result<Record, NowaitFault>
    requires may { MayChangeTree latches.now pass.old }
    ensures rest { IsAtRest latches.now pass.new }
    ensures changed { IfOk result (λ answer. HasChangedTree latches.now.sizes (InsertCall key value) answer pass.old pass.new) }
    ensures twice { OnOk result (AreFewLooks 0 pass.old.view pass.new.view) }
    ensures contended { IfErr result (λ fault. IsContended latches.now.sizes (TakesToInsert latches.now.sizes key) most_to_insert fault pass.old pass.new) }
{
    let call = Call::Insert { key, value };
    let mut mtr = Mtr::start(latches, pass);
    let path = match try_path(&mut mtr, key) {
        Ok(path) => path,
        Err(fault) => {
            mtr.finish();
            return Err(fault);
        }
    };
    facts_of_session(&mtr);
    if value_in(&mtr, &path, key).is_some() {
        let place = mtr.commit_read();
        return Ok(Record {
            call,
            reply: Reply::Duplicate,
            place,
        });
    }
    let Ok(need) = needed(&mut mtr, &path) else {
        let place = mtr.commit_read();
        return Ok(Record {
            call,
            reply: Reply::TooHigh,
            place,
        });
    };
    let fresh = match try_fresh(&mut mtr, &path, need) {
        Ok(fresh) => fresh,
        Err(FreshFault::Short(free)) => {
            facts_of_session(&mtr);
            let place = mtr.commit_read();
            return Ok(Record {
                call,
                reply: Reply::SpaceFull { free, need },
                place,
            });
        }
        Err(FreshFault::Refused(fault)) => {
            mtr.give_back();
            mtr.finish();
            return Err(fault);
        }
    };
    facts_of_session(&mtr);
    plan_in(&mut mtr, &path, &fresh, key, value);
    match at_log(mtr.commit_nowait(Change::Insert { key, value })) {
        Ok(committed) => Ok(changed(call, Reply::Inserted, committed, pass.place())),
        Err(fault) => Err(fault),
    }
}
