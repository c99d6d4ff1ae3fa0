//! The fresh pages of an insert into both trees.

ghost use Rattle.std.specs.Prelude.{◌≡◌, ◌+◌, ◌≤◌, ℕ, List, [], Some, IfOk, IfErr};
ghost use Rattle.ib_map.specs.Keys.{MapKey};
ghost use Rattle.ib_second_key.specs.SecondKeys.{second_key_of};
ghost use Rattle.ib_page.specs.declared.path.TheConstants.{MOST_PATH};
ghost use Rattle.ib_page.specs.Work.{changed_of};
ghost use Rattle.ib_plans.specs.declared.fault.TreeFault.{TreeFault};
ghost use Rattle.ib_plans.specs.Agreement.{IsThere};
ghost use Rattle.ib_rule.specs.Conditions.{HasGrantsLeft};
ghost use Rattle.ib_rule.specs.Pass.{PassState};
ghost use Rattle.ib_mtr.specs.Mtr.{IsMtr, IsStillMtr};
ghost use Rattle.ib_second.specs.PairComes.{HasComeToPair, HasFoundTooFew, HasTakenFresh, IsChosenPair, IsLackingPair, NeedsPages};

use crate::pages::{PairWork, take_each, take_space};
use ib_levels::Level;
use ib_page::Path;
use ib_pair_change::{FreshPages, Needs, choose_pair_pages};
use ib_plans::TreeFault;
use std::sync::Wait;

// Chooses the fresh pages of both trees by page 0, which is loaded.
fn choose(mtr: &mut PairWork<'_>, need: Needs) -> Result<FreshPages, TreeFault>
    requires mtr { IsMtr mtr.old.latches.now mtr.old.pass.now }
    requires space { IsThere mtr.old.pass.now.work 0 }
    requires few { need.first + need.second ≤ MOST_PATH }
    ensures still { IsStillMtr mtr.old mtr.new }
    ensures pass { mtr.new.pass ≡ mtr.old.pass }
    ensures chosen { IfOk result (λ both. (image : List ℕ) → changed_of 0 mtr.old.pass.now.work ≡ Some image
        → IsChosenPair mtr.old.latches.now.sizes.pages image need.first need.second both.first both.second) }
    ensures short { IfErr result (λ fault. (image : List ℕ) → changed_of 0 mtr.old.pass.now.work ≡ Some image
        → IsLackingPair mtr.old.latches.now.sizes.pages image (need.first + need.second) fault) }
{
    let pages = mtr.geometry().pages();
    choose_pair_pages(mtr.work(), pages, need)
}

// How many pages are free where too few are.
fn free_pages(fault: TreeFault) -> u32
    ensures { (free need : ℕ) → fault ≡ TreeFault.NeedPages free need → result ≡ free }
{
    match fault {
        TreeFault::NeedPages { free, .. } => free,
        _ => 0,
    }
}

fn no_pages() -> FreshPages
    ensures first { result.first ≡ [] }
    ensures second { result.second ≡ [] }
{
    FreshPages {
        first: Path::new(),
        second: Path::new(),
    }
}

// Takes the fresh pages that both inserts need, with page 0 before them, or says how many are free where these are too few.
pub(crate) fn take_fresh<R: Wait>(
    rt: &R,
    mtr: &mut PairWork<'_>,
    need: Needs,
) -> Result<FreshPages, u32>
    requires mtr { IsMtr mtr.old.latches.now mtr.old.pass.now }
    requires room { HasGrantsLeft 64 mtr.old.pass.now.view }
    requires few { need.first + need.second ≤ MOST_PATH }
    requires ready { (key : MapKey) × (value : ℕ) × (path : List ℕ) × (other_path : List ℕ) × (before : PassState)
        × HasComeToPair mtr.old.latches.now.sizes key path (second_key_of key value) other_path before mtr.old.pass.now }
    ensures still { IsStillMtr mtr.old mtr.new }
    ensures taken { IfOk result (λ fresh. (key : MapKey) (value : ℕ) (path other_path : List ℕ) (before : PassState)
        → HasComeToPair mtr.old.latches.now.sizes key path (second_key_of key value) other_path before mtr.old.pass.now
        → NeedsPages mtr.old.latches.now.sizes key value path need.first need.second mtr.old.pass.now
        → HasTakenFresh mtr.old.latches.now.sizes key value path other_path fresh.first fresh.second mtr.old.pass.now mtr.new.pass.now) }
    ensures short { IfErr result (λ free. (key : MapKey) (value : ℕ) (path other_path : List ℕ) (before : PassState)
        → HasComeToPair mtr.old.latches.now.sizes key path (second_key_of key value) other_path before mtr.old.pass.now
        → NeedsPages mtr.old.latches.now.sizes key value path need.first need.second mtr.old.pass.now
        → HasFoundTooFew mtr.old.latches.now.sizes key value path other_path free (need.first + need.second) mtr.old.pass.now mtr.new.pass.now) }
{
    // For the proof: a space has a number of pages of which the laws speak.
    let _ = mtr.geometry().pages();
    if need.first + need.second == 0 {
        return Ok(no_pages());
    }
    take_space(rt, mtr);
    match choose(mtr, need) {
        Ok(fresh) => {
            take_each(rt, mtr, &fresh.first, Level::PageNew);
            take_each(rt, mtr, &fresh.second, Level::PageNew);
            Ok(fresh)
        }
        Err(fault) => Err(free_pages(fault)),
    }
}
