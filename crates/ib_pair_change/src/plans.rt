//! What a change of both trees needs, and its plans on one work set.

ghost use Rattle.std.specs.Prelude.{◌≡◌, ◌≢◌, ◌+◌, ◌<◌, ◌≤◌, ◌++◌, ℕ, [], List, Some, true, false, length, IfOk, IfErr, MatchResult};
ghost use Rattle.ib_map.specs.Keys.{MapKey};
ghost use Rattle.ib_second_key.specs.SecondKeys.{IsPrimary, second_key_of};
ghost use Rattle.ib_page.specs.declared.space.TheConstants.{MAPPED_PAGES};
ghost use Rattle.ib_page.specs.declared.path.TheConstants.{MOST_PATH};
ghost use Rattle.ib_page.specs.Work.{changed_of};
ghost use Rattle.ib_walk.specs.Full.{chosen, free_of, is_too_high, need_of};
ghost use Rattle.ib_walk.specs.Pages.{PageMemory};
ghost use Rattle.ib_plans.specs.declared.fault.TreeFault.{TreeFault};
ghost use Rattle.ib_plans.specs.Agreement.{Agrees, HasTreePages, IsThere, bits_in, with_bits};
ghost use Rattle.ib_pair_change.specs.PairPlans.{CanDeletePair, CanInsertPair, IsPlannedPair, IsPlannedPairDelete, TooHighForPair};

use ib_map::Key;
use ib_merge::plan_delete;
use ib_page::{Path, WorkSet};
use ib_plans::TreeFault;
use ib_second_key::second_key;
use ib_split::{choose_pages, pages_needed, plan_insert};

// How many trees there are.
const ROOTS: u32 = 2;

/// The paths of a key in the first tree and of its pair's second key in the second.
#[derive(Drop)]
pub struct PairPaths {
    pub first: Path,
    pub second: Path,
}

/// How many pages an insert of a pair takes in each tree.
#[derive(Clone, Copy, Debug)]
pub struct Needs {
    pub first: u32,
    pub second: u32,
}

/// The pages that an insert of a pair fills in each tree.
#[derive(Drop)]
pub struct FreshPages {
    pub first: Path,
    pub second: Path,
}

/// How many pages an insert of a pair takes in each tree. `TooHigh` exactly where one of the roots would be raised at the highest
/// level that two trees may have (`btr_root_raise_and_insert`). The pages of both paths are there.
///
/// ```
/// let needs = pair_pages_needed(&work, &paths)?;
/// let fresh = choose_pair_pages(&work, pages, needs)?;
/// ```
pub fn pair_pages_needed(work: &WorkSet, paths: &PairPaths) -> Result<Needs, TreeFault>
    requires some { (paths.now.first ≢ []) × (paths.now.second ≢ []) }
    requires there { HasTreePages paths.now.first work.now × HasTreePages paths.now.second work.now }
    ensures needed { (pages : ℕ) (key other_key : MapKey) (memory : PageMemory) (bits : ℕ → ℕ)
        → Agrees pages 2 1 key paths.now.first work.now memory bits
        → Agrees pages 2 2 other_key paths.now.second work.now memory bits
        → MatchResult result (λ needs. (is_too_high 2 memory key 1 ≡ false) × (is_too_high 2 memory other_key 2 ≡ false)
        × (needs.first ≡ need_of memory key 1) × (needs.second ≡ need_of memory other_key 2)
        × (needs.first + needs.second ≤ MOST_PATH))
        (λ fault. TooHighForPair memory key other_key × (fault ≡ TreeFault.TooHigh)) }
    ensures few { IfOk result (λ needs. needs.first + needs.second ≤ MOST_PATH + MOST_PATH) }
{
    let first = pages_needed(work, &paths.first, ROOTS)?;
    let second = pages_needed(work, &paths.second, ROOTS)?;
    Ok(Needs { first, second })
}

// The first pages of a path, so many, and the others.
fn parted(path: &Path, count: u32) -> FreshPages
    ensures { (front back : List ℕ) → path.now ≡ front ++ back → length front ≡ count
        → (result.first ≡ front) × (result.second ≡ back) }
{
    let pages = path.pages();
    let count = count as usize;
    let mut first = Path::new();
    let mut second = Path::new();
    let mut at = 0;
    while at < pages.len() {
        if at < count {
            first.push(pages[at]);
        } else {
            second.push(pages[at]);
        }
        at += 1;
    }
    FreshPages { first, second }
}

/// The lowest free pages for an insert of a pair: those of the first tree, and those of the second behind them
/// (`fsp_alloc_free_page`). `NeedPages` exactly where fewer are free than both take. Page 0 is there.
///
/// ```
/// let fresh = choose_pair_pages(&work, pages, needs)?;
/// plan_pair_insert(&mut work, &paths, &fresh, key, value);
/// ```
pub fn choose_pair_pages(work: &WorkSet, pages: u32, need: Needs) -> Result<FreshPages, TreeFault>
    requires space { IsThere work.now 0 }
    requires pages { pages ≤ MAPPED_PAGES }
    requires few { need.first + need.second ≤ MOST_PATH }
    ensures chosen { IfOk result (λ both. (image : List ℕ) → changed_of 0 work.now ≡ Some image
        → (both.first ≡ chosen (bits_in pages image) pages need.first)
        × (both.second ≡ chosen (with_bits both.first 1 (bits_in pages image)) pages need.second)
        × (need.first + need.second ≤ free_of (bits_in pages image) pages)) }
    ensures short { IfErr result (λ fault. (image : List ℕ) → changed_of 0 work.now ≡ Some image
        → (fault ≡ TreeFault.NeedPages (free_of (bits_in pages image) pages) (need.first + need.second))
        × (free_of (bits_in pages image) pages < need.first + need.second)) }
{
    let all = choose_pages(work, pages, need.first + need.second)?;
    Ok(parted(&all, need.first))
}

/// Changes the images of a work set as an insert of the pair into the first tree asks it, and then as an insert of its second
/// key does into the second tree (`row_ins_clust_index_entry`, `row_ins_sec_index_entry`).
///
/// ```
/// plan_pair_insert(mtr.work(), &paths, &fresh, key, value);
/// let committed = mtr.commit(rt, Change::Insert { key, value });
/// ```
pub fn plan_pair_insert(
    work: &mut WorkSet,
    paths: &PairPaths,
    fresh: &FreshPages,
    key: Key,
    value: u64,
)
    requires primary { IsPrimary key }
    requires can { CanInsertPair paths.now.first fresh.now.first key value paths.now.second fresh.now.second work.old }
    ensures { IsPlannedPair paths.now.first fresh.now.first key value paths.now.second fresh.now.second work.old work.new }
{
    let _ = plan_insert(work, &paths.first, &fresh.first, key, value);
    let second = second_key(key, value);
    let _ = plan_insert(work, &paths.second, &fresh.second, second, 0);
}

/// Changes the images of a work set as a delete of the key from the first tree asks it, and then as a delete of its pair's second
/// key from the second tree does (`row_upd_clust_step`, `row_upd_sec_step`, with the purge after them).
///
/// ```
/// plan_pair_delete(mtr.work(), &paths, key, value);
/// let committed = mtr.commit(rt, Change::Delete { key });
/// ```
pub fn plan_pair_delete(work: &mut WorkSet, paths: &PairPaths, key: Key, value: u64)
    requires primary { IsPrimary key }
    requires can { CanDeletePair paths.now.first key value paths.now.second work.old }
    ensures { IsPlannedPairDelete paths.now.first key value paths.now.second work.old work.new }
{
    let _ = plan_delete(work, &paths.first, key);
    let second = second_key(key, value);
    let _ = plan_delete(work, &paths.second, second);
}
