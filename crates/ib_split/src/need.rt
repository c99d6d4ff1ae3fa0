//! How many pages an insert takes.

ghost use Rattle.std.specs.Prelude.{◌≡◌, ◌≢◌, ◌≤◌, ◌+◌, ◌==◌, ℕ, [], true, false, length, reverse, IfOk, IsSomeAnd, MatchResult};
ghost use Rattle.ib_map.specs.Keys.{MapKey};
ghost use Rattle.ib_page.specs.declared.path.TheConstants.{MOST_PATH};
ghost use Rattle.ib_heap.specs.declared.TheConstants.{MOST_RECORDS};
ghost use Rattle.ib_page.specs.Image.{IsTreePage};
ghost use Rattle.ib_page.specs.Work.{changed_of};
ghost use Rattle.ib_walk.specs.Pages.{PageMemory};
ghost use Rattle.ib_walk.specs.Trees.{most_height};
ghost use Rattle.ib_walk.specs.Full.{full_run, need_of, is_too_high};
ghost use Rattle.ib_plans.specs.declared.fault.TreeFault.{TreeFault};
ghost use Rattle.ib_plans.specs.Agreement.{Agrees, memory_in, HasTreePages};

use ib_page::{MOST_PATH, MOST_RECORDS, Path, WorkSet};
use ib_plans::{TreeFault, image_of};

/// How many pages an insert takes: one for each full page of the key's path, counted from the leaf up
/// without a gap, and one more where the root is among them and is raised. `TooHigh` exactly where it
/// would be raised at the highest level that so many trees may have. The pages of the path are there.
pub fn pages_needed(work: &WorkSet, path: &Path, roots: u32) -> Result<u32, TreeFault>
    requires some { path.now ≢ [] }
    requires there { HasTreePages path.now work.now }
    ensures needed { (pages root : ℕ) → (key : MapKey) → (memory : PageMemory) → (bits : ℕ → ℕ)
        → Agrees pages roots root key path.now work.now memory bits
        → MatchResult result (λ need. (is_too_high roots memory key root ≡ false) × (need ≡ need_of memory key root))
        (λ fault. (is_too_high roots memory key root ≡ true) × (fault ≡ TreeFault.TooHigh)) }
    ensures few { IfOk result (λ need. need ≤ MOST_PATH) }
{
    let run = full_pages(work, path.pages());
    if run < path.len() {
        Ok(run as u32)
    } else if run < longest_path(roots) {
        Ok(run as u32 + 1)
    } else {
        Err(TreeFault::TooHigh)
    }
}

// How many pages a path has where the root is as high as one of so many trees may be.
fn longest_path(roots: u32) -> usize
    ensures { result ≡ most_height roots + 1 }
{
    if roots == 1 { MOST_PATH } else { 4 }
}

// How many pages at the end of a path are full, without a gap.
fn full_pages(work: &WorkSet, path: &[u32]) -> usize
    requires { HasTreePages path.now work.now }
    ensures run { result ≡ full_run (memory_in work.now) (reverse path.now) }
    ensures few { result ≤ length path.now }
{
    for count in 0..path.len() {
        if !is_full(work, path[path.len() - 1 - count]) {
            return count;
        }
    }
    path.len()
}

// Whether a page of a tree has as many records as fit.
pub(crate) fn is_full(work: &WorkSet, page: u32) -> bool
    requires { IsSomeAnd (changed_of page work.now) IsTreePage }
    ensures { result ≡ (length (memory_in work.now page).records == MOST_RECORDS) }
{
    image_of(work, page).len() == MOST_RECORDS
}
