//! The planned insert (btr0cur, `btr_cur_pessimistic_insert`).

ghost use Rattle.std.specs.Prelude.{◌≡◌, ◌↔◌, ◌<◌, ◌≤◌, length, None, IsSome, IsErr, OnOk, OnErr, IfErr};
ghost use Rattle.ib_map.specs.Pairs.{value_at};
ghost use Rattle.ib_plans.specs.declared.fault.TreeFault.{TreeFault};
ghost use Rattle.ib_plans.specs.Agreement.{memory_in, reads_of, last_of, HasTreePages};
ghost use Rattle.ib_split.specs.Inserts.{CanInsert, IsPlannedInsertForAll, IsInsertClimbedForAll};

use crate::edits::{put_record, raise, split, take_pages};
use crate::need::is_full;
use ib_map::Key;
use ib_page::{Path, WorkSet};
use ib_plans::{TreeFault, image_of};

/// Changes the images of a work set as an insert of the record asks it: the record goes into the key's leaf; from
/// there up, each page that is full is split with the record that belongs to it, and a full root is raised. The fresh pages
/// are those that `choose_pages` gives, as many as `pages_needed` says; the clock of each page that is written ticks
/// once. `Duplicate` exactly where the key is there, and then nothing is changed.
///
/// The changed images are planned for every lawful memory whose pages these are.
pub fn plan_insert(
    work: &mut WorkSet,
    path: &Path,
    fresh: &Path,
    key: Key,
    value: u64,
) -> Result<(), TreeFault>
    requires { CanInsert path.now fresh.now key work.old }
    ensures planned { OnOk result (IsPlannedInsertForAll path.now fresh.now key value work.old work.new) }
    ensures reads { reads_of work.new ≡ reads_of work.old }
    ensures duplicate { IsErr result ↔ IsSome (value_at key (memory_in work.old (last_of path.now)).records) }
    ensures only_duplicate { IfErr result (λ fault. fault ≡ TreeFault.Duplicate) }
    ensures unchanged { OnErr result (work.new ≡ work.old) }
{
    if value_in(work, path.pages(), key).is_some() {
        return Err(TreeFault::Duplicate);
    }
    let used = climb(work, path.pages(), fresh.pages(), key, value);
    if used > 0 {
        take_pages(work, &fresh.pages()[..used]);
    }
    Ok(())
}

// The value of a key in the last page of a path.
fn value_in(work: &WorkSet, path: &[u32], key: Key) -> Option<u64>
    requires some { 0 < length path.now }
    requires there { HasTreePages path.now work.now }
    ensures { result ≡ value_at key (memory_in work.now (last_of path.now)).records }
{
    image_of(work, path[path.len() - 1]).get(key)
}

// Puts the record into the last page of the path and splits each full page on the way up, or raises the root at the end. It
// answers how many fresh pages it used.
fn climb(work: &mut WorkSet, path: &[u32], fresh: &[u32], key: Key, value: u64) -> usize
    requires can { CanInsert path.now fresh.now key work.old }
    requires some { 0 < length path.now }
    requires absent { value_at key (memory_in work.old (last_of path.now)).records ≡ None }
    ensures climbed { IsInsertClimbedForAll path.now fresh.now key value result work.old work.new }
    ensures used { result ≤ length fresh.now }
{
    let mut key = key;
    let mut value = value;
    for used in 0..path.len() - 1 {
        let page = path[path.len() - 1 - used];
        if !is_full(work, page) {
            put_record(work, page, key, value);
            return used;
        }
        key = split(work, page, fresh[used], key, value);
        value = fresh[used] as u64;
    }
    let used = path.len() - 1;
    if !is_full(work, path[0]) {
        put_record(work, path[0], key, value);
        return used;
    }
    raise(work, path[0], fresh[used], fresh[used + 1], key, value);
    used + 2
}
