//! The words of an old log, entry by entry.

ghost use Rattle.std.specs.Prelude.{◌≡◌, ◌⊎◌, ◌+◌, ◌^◌, ◌<◌, ◌≤◌, [], ℕ, List, Some, true, length, slice_index, MatchResult, IfOk, IfErr, OnOk};
ghost use Rattle.ib_map.specs.Space.{has_pages};
ghost use Rattle.ib_logrec.specs.declared.entry.Entry.{Entry};
ghost use Rattle.ib_logrec.specs.declared.fault.LogFault.{LogFault as Fault};
ghost use Rattle.ib_old_log.specs.OldHeads.{brought_change, brought_head};
ghost use Rattle.ib_planned_change.specs.Changes.{IsMadeForAll};
ghost use Rattle.ib_planned_change.specs.Copies.{AreImagesAfter, IsBehind, IsBehindSome};
ghost use Rattle.ib_upgrade.specs.Upgrades.{IsFirstOldFault, IsUpgraded, IsUpgradeFault, entry_fault, refused_fault};

use crate::append::{MOST_ENTRY_WORDS, append_entry};
use ib_logrec::{LogFault, MOST_SESSIONS, UnlawfulKind};
use ib_map::LoggedChange;
use ib_old_log::{OldHead, old_head_at};
use ib_page::{Image, WorkSet};
use ib_planned_change::{Refused, make_change};
use ib_validate::TreePages;
use std::alloc::{AllocError, Global};

// One place for each session number, 0 among them.
const COUNTS: usize = MOST_SESSIONS as usize + 1;

/// The words of the log that makes the changes of an old log's entries, with their keys brought over, each planned anew behind
/// those before it. A fault is the first one: of the words of an entry, or of its number, or of its change, or that an insert
/// finds the tree or the space full. The work for an entry is in its words, and in the pages that its change reads and writes.
pub fn plan_anew(alloc: Global, pages: u32, words: &[u64]) -> Result<Vec<u64>, LogFault>
    requires few_words { length words.now < 2 ^ 32 }
    requires pages { has_pages pages ≡ true }
    // The words are those of a kept log with the changes of the old entries.
    ensures upgraded { IfOk result (λ new. IsUpgraded pages words.now new.items) }

    // Old words all of whose changes can be planned anew are brought over.
    ensures only { (new : List ℕ) → IsUpgraded pages words.now new → IfErr result (λ fault. fault ≡ LogFault.OutOfMemory) }

    // Which fault it is, and that words with a fault are refused for that one alone, or for want of memory.
    ensures fault { IfErr result (IsUpgradeFault pages words.now) }
    ensures refused { (other : Fault) → IsFirstOldFault pages words.now other
        → MatchResult result (λ _. ⊥) (λ fault. (fault ≡ LogFault.OutOfMemory) ⊎ (fault ≡ other)) }
{
    planned_words(alloc, pages, words)
}

// The words of the log that is planned anew, or the first fault of the old ones.
fn planned_words(alloc: Global, pages: u32, words: &[u64]) -> Result<Vec<u64>, LogFault>
    requires few_words { length words.now < 2 ^ 32 }
    requires pages { has_pages pages ≡ true }
    ensures upgraded { IfOk result (λ new. IsUpgraded pages words.now new.items) }
    ensures fault { IfErr result (IsUpgradeFault pages words.now) }
{
    let mut images = opening_images(alloc, pages)?;
    let mut work = WorkSet::with_room(alloc)?;
    let mut room = vec![in alloc; 0; MOST_ENTRY_WORDS]?;
    let mut log = Vec::new(alloc);
    put_entries(&mut log, &mut images, &mut work, &mut room, pages, words)?;
    Ok(log)
}

// The images of all pages of a new space.
fn opening_images(alloc: Global, pages: u32) -> Result<Vec<Image>, AllocError>
    requires { has_pages pages ≡ true }
    ensures size { IfOk result (λ images. length images.items ≡ pages) }
    ensures opening { IfOk result (λ images. AreImagesAfter pages [] images.items) }
{
    Ok(TreePages::opening(alloc, pages)?.into_images())
}

// Appends the entries of the new log, one for each entry of the old words, or finds the first fault of these.
fn put_entries(
    log: &mut Vec<u64>,
    images: &mut [Image],
    work: &mut WorkSet,
    room: &mut [u64],
    pages: u32,
    words: &[u64],
) -> Result<(), LogFault>
    requires few_words { length words.now < 2 ^ 32 }
    requires pages { has_pages pages ≡ true }
    requires none { log.old.items ≡ [] }
    requires size { length images.old ≡ pages }
    requires opening { AreImagesAfter pages [] images.old }
    requires room { MOST_ENTRY_WORDS ≤ length room.old }
    ensures upgraded { OnOk result (IsUpgraded pages words.now log.new.items) }
    ensures fault { IfErr result (IsUpgradeFault pages words.now) }
{
    let mut counts = [0; COUNTS];
    let mut place = 0;
    while (place as usize) < words.len() {
        let (head, next) = old_head_at(words, place, pages)?;
        let logged = put_change(images, work, &counts, &head, place)?;
        append_entry(log, room, logged, work)?;
        counts[logged.session as usize] = logged.number;
        place = next;
    }
    Ok(())
}

// Makes the change of an old entry that begins at `place`, and gives it as a history has it. `counts` has the number of each
// session's entries.
fn put_change(
    images: &mut [Image],
    work: &mut WorkSet,
    counts: &[u32],
    head: &OldHead,
    place: u32,
) -> Result<LoggedChange, LogFault>
    requires some { IsBehindSome images.old }
    requires session { head.now.session < length counts.now }
    requires number { 1 ≤ head.now.number }
    ensures logged { IfOk result (λ logged. logged ≡ brought_head head.now) }
    ensures numbered { OnOk result (head.now.number ≡ slice_index counts.now head.now.session + 1) }
    ensures made { OnOk result (IsMadeForAll (brought_change head.now.change) work.new images.old images.new) }
    ensures fault { IfErr result (λ fault. (log : List Entry) → IsBehind log images.old
        → entry_fault (length images.old) log place (slice_index counts.now head.now.session) (brought_head head.now) ≡ Some fault) }
{
    let logged = head.brought_over();
    if logged.number - 1 != counts[logged.session as usize] {
        return Err(LogFault::Unlawful {
            place,
            kind: UnlawfulKind::Number,
        });
    }
    match make_change(images, work, logged.change) {
        Ok(()) => Ok(logged),
        Err(refused) => Err(fault_of(refused, place)),
    }
}

// The fault of an entry at a place whose change is refused.
fn fault_of(refused: Refused, place: u32) -> LogFault
    ensures { result ≡ refused_fault place refused }
{
    match refused {
        Refused::Unmade => LogFault::Unlawful {
            place,
            kind: UnlawfulKind::Change,
        },
        Refused::Full { why } => LogFault::CannotPlan { place, why },
    }
}
