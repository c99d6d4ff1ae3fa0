//! The planned delete (btr0cur, `btr_cur_pessimistic_delete`).

ghost use Rattle.std.specs.Prelude.{◌≡◌, ◌↔◌, Some, None, ◌≤◌, ◌&&◌, ◌==◌, length, nat_lt, IfOk, IfErr, IsErr, OnOk, OnErr};
ghost use Rattle.ib_map.specs.Pairs.{value_at};
ghost use Rattle.ib_page.specs.declared.path.TheConstants.{MOST_PATH};
ghost use Rattle.ib_page.specs.Image.{IsTreePage, level_of, records_of};
ghost use Rattle.ib_plans.specs.declared.TheConstants.{FEWEST_RECORDS};
ghost use Rattle.ib_plans.specs.declared.fault.TreeFault.{TreeFault};
ghost use Rattle.ib_plans.specs.Agreement.{memory_in, reads_of, last_of};
ghost use Rattle.ib_merge.specs.Deletes.{CanDelete, IsPlannedDeleteForAll, IsDeleteClimbedForAll};

use crate::choose::choose_merger;
use crate::edits::{give_pages, lift, merge, take_record};
use ib_map::Key;
use ib_page::{Image, Path, WorkSet};
use ib_plans::{FEWEST_RECORDS, TreeFault, image_of};

/// Changes the images of a work set as a delete of the key asks it, and gives its value: the record leaves the key's
/// leaf; from there up, a page other than the root that lost a record and has fewer than `FEWEST_RECORDS` is merged with
/// its left sibling under the same parent where both fit one page, else with its right one where both fit, else it stays;
/// and a root that is left with one child takes that child's records. The clock of each page that is written ticks
/// once. `Missing` exactly where the key is not there, and then nothing is changed.
///
/// The changed images are planned for every lawful memory whose pages these are.
pub fn plan_delete(work: &mut WorkSet, path: &Path, key: Key) -> Result<u64, TreeFault>
    requires { CanDelete path.now key work.old }
    ensures value { IfOk result (λ value. value_at key (memory_in work.old (last_of path.now)).records ≡ Some value) }
    ensures planned { OnOk result (IsPlannedDeleteForAll path.now key work.old work.new) }
    ensures reads { reads_of work.new ≡ reads_of work.old }
    ensures missing { IsErr result ↔ (value_at key (memory_in work.old (last_of path.now)).records ≡ None) }
    ensures only_missing { IfErr result (λ fault. fault ≡ TreeFault.Missing) }
    ensures unchanged { OnErr result (work.new ≡ work.old) }
{
    let leaf = path.pages()[path.len() - 1];
    let Some(value) = image_of(work, leaf).get(key) else {
        return Err(TreeFault::Missing);
    };
    let freed = climb(work, path.pages(), key);
    give_pages(work, freed.pages());
    Ok(value)
}

// Takes the record out of the last page of the path, merges each page with few records on the way up, and lifts a root that
// is left with one child. It answers the pages that it freed.
fn climb(work: &mut WorkSet, path: &[u32], key: Key) -> Path
    requires can { CanDelete path.now key work.old }
    requires few { length path.now ≤ MOST_PATH }
    ensures { IsDeleteClimbedForAll path.now key result work.old work.new }
{
    let mut freed = Path::new();
    take_record(work, path[path.len() - 1], key);
    for height in 0..path.len() - 1 {
        let parent = path[path.len() - 2 - height];
        if !is_short(image_of(work, path[path.len() - 1 - height])) {
            return freed;
        }
        let Some(merger) = choose_merger(work, parent, key) else {
            return freed;
        };
        merge(work, parent, merger);
        freed.push(merger.gone.1);
    }
    if is_single(image_of(work, path[0])) {
        freed.push(lift(work, path[0]));
    }
    freed
}

// Whether a page that lost a record has few.
fn is_short(image: &Image) -> bool
    requires { IsTreePage image.now }
    ensures { result ≡ nat_lt (length (records_of image.now)) FEWEST_RECORDS }
{
    image.len() < FEWEST_RECORDS
}

// Whether a page is a node with one record.
fn is_single(image: &Image) -> bool
    requires { IsTreePage image.now }
    ensures { result ≡ (nat_lt 0 (level_of image.now) && (length (records_of image.now) == 1)) }
{
    image.level() > 0 && image.len() == 1
}
