//! The insert that changes the tree's structure.

ghost use Rattle.std.specs.Prelude.{◌≡◌, ◌≢◌, ℕ, ◌+◌, ◌<◌, ◌≤◌, List, [], ◌∷◌, ◌++◌, Some, None, length, true, false, IfOk, IfErr, MatchResult, Result};
ghost use Rattle.ib_map.specs.Keys.{MapKey};
ghost use Rattle.ib_map.specs.Pairs.{value_at};
ghost use Rattle.ib_core.specs.Holders.{CanWish};
ghost use Rattle.ib_levels.specs.declared.level.Level.{Level as LevelValue};
ghost use Rattle.ib_levels.specs.declared.level.Level.TheVariants.{Space};
ghost use Rattle.ib_page.specs.Work.{WorkPage, IsWork, changed_of};
ghost use Rattle.ib_page.specs.declared.path.TheConstants.{MOST_PATH};
ghost use Rattle.ib_page.specs.declared.work.TheConstants.{MOST_WORK_PAGES};
ghost use Rattle.ib_walk.specs.Full.{is_too_high, need_of};
ghost use Rattle.ib_walk.specs.Pages.{PageMemory};
ghost use Rattle.ib_plans.specs.declared.fault.TreeFault.{TreeFault};
ghost use Rattle.ib_plans.specs.Agreement.{Agrees, HasTreePages, IsThere, last_of, memory_in, reads_of};
ghost use Rattle.ib_split.specs.Inserts.{CanInsert, IsPlannedInsertForAll};
ghost use Rattle.ib_tree.specs.PageLists.{AreOnce, is_listed};
ghost use Rattle.ib_rule.specs.Conditions.{HasGrantLeft, HasGrantsLeft, MayGrow};
ghost use Rattle.ib_rule.specs.Pass.{IsAtRest, PassState};
ghost use Rattle.ib_mtr.specs.Mtr.{IsMtr, IsStillMtr, with_work};
ghost use Rattle.ib_cursor.specs.Descent.{MayDescend};
ghost use Rattle.ib_map.specs.declared.call.Call.TheVariants.{Insert as InsertCall};
ghost use Rattle.ib_index.specs.Grows.{HasChangedTree, HasClaimedPath, HasGrown, HasTakenNew, HoldsAllPages, IsChosen, IsGrowing, IsLacking, IsShort, MayChangeTree, NeedsPages, pages_held, space_pages, tree_pages};

use ib_cursor::{descend_to_insert, read, take};
use ib_latch::{Latches, Parkers, Sleep};
use ib_leaf::{ROOT, Work, changed, facts_of_session, value_in};
use ib_levels::{Latch, Level, Mode};
use ib_map::{Call, Change, Key, Record, Reply};
use ib_mtr::Mtr;
use ib_page::Path;
use ib_planned_log::KeptLaw;
use ib_plans::TreeFault;
use ib_rule::Pass;
use ib_split::{choose_pages, pages_needed, plan_insert};
use std::sync::Wait;

// Claims the key's path: the index is claimed, and the pages of the path and the leaves beside the
// key's leaf are held in X, and loaded.
fn claim_path<R: Wait>(rt: &R, mtr: &mut Work<'_>, key: Key) -> Path
    requires may { MayDescend mtr.old.latches.now mtr.old.pass.now }
    requires unwatched { mtr.old.pass.now.view.memory.since ≡ [] }
    ensures still { IsStillMtr mtr.old mtr.new }
    ensures reached { HasClaimedPath mtr.old.latches.now.sizes key result mtr.old.pass.now mtr.new.pass.now }
{
    // For the proof: a space has a number of pages of which the laws speak.
    let _ = mtr.geometry().pages();
    descend_to_insert(rt, mtr, ROOT, key)
}

// Takes a page in X at a level, and loads it.
fn take_at<R: Wait>(rt: &R, mtr: &mut Work<'_>, page: u32, level: Level)
    requires mtr { IsMtr mtr.old.latches.now mtr.old.pass.now }
    requires page { page < mtr.old.latches.now.sizes.pages }
    requires grows { MayGrow mtr.old.pass.now.view }
    requires may { CanWish (page + 2) level mtr.old.pass.now.view.session }
    requires absent { changed_of page mtr.old.pass.now.work ≡ None }
    requires few { length mtr.old.pass.now.work < MOST_WORK_PAGES }
    ensures still { IsStillMtr mtr.old mtr.new }
    ensures grown { (key : MapKey) → (path : List ℕ) → (held : List (ℕ × LevelValue))
        → IsGrowing mtr.old.latches.now.sizes key path held mtr.old.pass.now
        → is_listed (pages_held held) page ≡ false
        → HasGrown mtr.old.latches.now.sizes key path held page level mtr.old.pass.now mtr.new.pass.now }
{
    // For the proof: a space has a number of pages of which the laws speak.
    let _ = mtr.geometry().pages();
    take(rt, mtr, Latch::page(page), Mode::X, level);
    read(mtr, page);
}

// How many pages the insert takes.
pub(crate) fn needed<S: Sleep>(mtr: &mut Mtr<'_, KeptLaw, S>, path: &Path) -> Result<u32, TreeFault>
    requires mtr { IsMtr mtr.old.latches.now mtr.old.pass.now }
    requires some { path.now ≢ [] }
    requires trees { HasTreePages path.now mtr.old.pass.now.work }
    ensures still { IsStillMtr mtr.old mtr.new }
    ensures pass { mtr.new.pass ≡ mtr.old.pass }
    ensures needed { (pages root : ℕ) → (key : MapKey) → (memory : PageMemory) → (bits : ℕ → ℕ)
        → Agrees pages 1 root key path.now mtr.old.pass.now.work memory bits
        → MatchResult result (λ need. (is_too_high 1 memory key root ≡ false) × (need ≡ need_of memory key root))
        (λ fault. (is_too_high 1 memory key root ≡ true) × (fault ≡ TreeFault.TooHigh)) }
    ensures few { IfOk result (λ need. need ≤ MOST_PATH) }
{
    pages_needed(mtr.work(), path, 1)
}

// Plans the insert on the images of the work set.
pub(crate) fn plan_in<S: Sleep>(
    mtr: &mut Mtr<'_, KeptLaw, S>,
    path: &Path,
    fresh: &Path,
    key: Key,
    value: u64,
)
    requires mtr { IsMtr mtr.old.latches.now mtr.old.pass.now }
    requires can { CanInsert path.now fresh.now key mtr.old.pass.now.work }
    requires missing { value_at key (memory_in mtr.old.pass.now.work (last_of path.now)).records ≡ None }
    ensures still { IsStillMtr mtr.old mtr.new }
    ensures planned { (work : List WorkPage) × (mtr.new.pass.now ≡ with_work work mtr.old.pass.now)
        × IsPlannedInsertForAll path.now fresh.now key value mtr.old.pass.now.work work
        × (reads_of work ≡ reads_of mtr.old.pass.now.work) × IsWork work }
{
    let work = mtr.work();
    let _ = plan_insert(work, path, fresh, key, value);
    // For the proof: the pages of a work set ascend.
    let _ = work.len();
}

// Takes page 0 behind the pages of the tree.
pub(crate) fn take_space<R: Wait>(rt: &R, mtr: &mut Work<'_>)
    requires mtr { IsMtr mtr.old.latches.now mtr.old.pass.now }
    requires room { HasGrantLeft mtr.old.pass.now.view }
    requires ready { (key : MapKey) × (path : List ℕ) × (held : List ℕ)
        × IsGrowing mtr.old.latches.now.sizes key path (tree_pages held) mtr.old.pass.now
        × (is_listed held 0 ≡ false) × (length held ≤ 23) }
    ensures still { IsStillMtr mtr.old mtr.new }
    ensures grown { (key : MapKey) → (path : List ℕ) → (held : List ℕ)
        → IsGrowing mtr.old.latches.now.sizes key path (tree_pages held) mtr.old.pass.now → is_listed held 0 ≡ false
        → HasGrown mtr.old.latches.now.sizes key path (tree_pages held) 0 Space mtr.old.pass.now mtr.new.pass.now }
{
    // For the proof: a space has a number of pages of which the laws speak.
    let _ = mtr.geometry().pages();
    take_at(rt, mtr, 0, Level::Space);
}

// Chooses the fresh pages by page 0, which is loaded.
pub(crate) fn choose<S: Sleep>(mtr: &mut Mtr<'_, KeptLaw, S>, need: u32) -> Result<Path, TreeFault>
    requires mtr { IsMtr mtr.old.latches.now mtr.old.pass.now }
    requires space { IsThere mtr.old.pass.now.work 0 }
    requires few { need ≤ MOST_PATH }
    ensures still { IsStillMtr mtr.old mtr.new }
    ensures pass { mtr.new.pass ≡ mtr.old.pass }
    ensures chosen { IfOk result (λ path. (image : List ℕ) → changed_of 0 mtr.old.pass.now.work ≡ Some image
        → IsChosen mtr.old.latches.now.sizes.pages image need path) }
    ensures short { IfErr result (λ fault. (image : List ℕ) → changed_of 0 mtr.old.pass.now.work ≡ Some image
        → IsLacking mtr.old.latches.now.sizes.pages image need fault) }
{
    let pages = mtr.geometry().pages();
    choose_pages(mtr.work(), pages, need)
}

// Takes the fresh pages behind page 0.
fn take_new<R: Wait>(rt: &R, mtr: &mut Work<'_>, fresh: &Path)
    requires mtr { IsMtr mtr.old.latches.now mtr.old.pass.now }
    requires room { HasGrantsLeft 16 mtr.old.pass.now.view }
    requires ready { (key : MapKey) × (path : List ℕ) × (held : List ℕ)
        × IsGrowing mtr.old.latches.now.sizes key path (space_pages held) mtr.old.pass.now
        × AreOnce (held ++ 0 ∷ fresh.now) mtr.old.latches.now.sizes.pages × (length held ≤ 10) }
    ensures still { IsStillMtr mtr.old mtr.new }
    ensures taken { (key : MapKey) → (path held : List ℕ)
        → IsGrowing mtr.old.latches.now.sizes key path (space_pages held) mtr.old.pass.now
        → AreOnce (held ++ 0 ∷ fresh.now) mtr.old.latches.now.sizes.pages
        → HasTakenNew mtr.old.latches.now.sizes key path (space_pages held) fresh.now mtr.old.pass.now mtr.new.pass.now }
{
    let pages = fresh.pages();
    let mut at = 0;
    while at < pages.len() {
        take_at(rt, mtr, pages[at], Level::PageNew);
        at += 1;
    }
}

// How many pages are free where too few are.
pub(crate) fn free_pages(fault: TreeFault) -> u32
    ensures { (free need : ℕ) → fault ≡ TreeFault.NeedPages free need → result ≡ free }
{
    match fault {
        TreeFault::NeedPages { free, .. } => free,
        _ => 0,
    }
}

// Takes the fresh pages that the insert needs, with page 0 before them, or says how many are free where
// these are too few.
fn take_fresh<R: Wait>(rt: &R, mtr: &mut Work<'_>, path: &Path, need: u32) -> Result<Path, u32>
    requires mtr { IsMtr mtr.old.latches.now mtr.old.pass.now }
    requires ready { (key : MapKey) × (p : PassState)
        × HasClaimedPath mtr.old.latches.now.sizes key path.now p mtr.old.pass.now }
    requires few { need ≤ MOST_PATH }
    requires room { HasGrantsLeft 64 mtr.old.pass.now.view }
    ensures still { IsStillMtr mtr.old mtr.new }
    ensures taken { IfOk result (λ fresh. (key : MapKey) → (p : PassState)
        → HasClaimedPath mtr.old.latches.now.sizes key path.now p mtr.old.pass.now
        → NeedsPages mtr.old.latches.now.sizes.pages key path.now need mtr.old.pass.now.work
        → HoldsAllPages mtr.old.latches.now.sizes key path.now fresh mtr.old.pass.now mtr.new.pass.now) }
    ensures short { IfErr result (λ free. (key : MapKey) → (p : PassState)
        → HasClaimedPath mtr.old.latches.now.sizes key path.now p mtr.old.pass.now
        → NeedsPages mtr.old.latches.now.sizes.pages key path.now need mtr.old.pass.now.work
        → IsShort mtr.old.latches.now.sizes key path.now free need mtr.old.pass.now mtr.new.pass.now) }
{
    if need == 0 {
        return Ok(Path::new());
    }
    // For the proof: a space has a number of pages of which the laws speak.
    let _ = mtr.geometry().pages();
    take_space(rt, mtr);
    match choose(mtr, need) {
        Ok(fresh) => {
            take_new(rt, mtr, &fresh);
            Ok(fresh)
        }
        Err(fault) => Err(free_pages(fault)),
    }
}

/// The insert that may change the tree's structure (btr0cur, `btr_cur_pessimistic_insert`).
pub(crate) fn pessimistic_insert<R: Wait>(
    rt: &R,
    latches: &Latches<KeptLaw, Parkers>,
    pass: &mut Pass,
    key: Key,
    value: u64,
) -> Record
    requires may { MayChangeTree latches.now pass.old }
    ensures rest { IsAtRest latches.now pass.new }
    ensures changed { HasChangedTree latches.now.sizes (InsertCall key value) result pass.old pass.new }
{
    let call = Call::Insert { key, value };
    let mut mtr = Mtr::start(latches, pass);
    let path = claim_path(rt, &mut mtr, key);
    facts_of_session(&mtr);
    if value_in(&mtr, &path, key).is_some() {
        let place = mtr.commit_read();
        return Record {
            call,
            reply: Reply::Duplicate,
            place,
        };
    }
    let Ok(need) = needed(&mut mtr, &path) else {
        let place = mtr.commit_read();
        return Record {
            call,
            reply: Reply::TooHigh,
            place,
        };
    };
    let fresh = match take_fresh(rt, &mut mtr, &path, need) {
        Ok(fresh) => fresh,
        Err(free) => {
            facts_of_session(&mtr);
            let place = mtr.commit_read();
            return Record {
                call,
                reply: Reply::SpaceFull { free, need },
                place,
            };
        }
    };
    facts_of_session(&mtr);
    plan_in(&mut mtr, &path, &fresh, key, value);
    let committed = mtr.commit(rt, Change::Insert { key, value });
    changed(call, Reply::Inserted, committed, pass.place())
}
