//! What an image file restores.

ghost use Rattle.std.specs.Prelude.{◌≡◌, ◌⊎◌, ◌^◌, ◌<◌, ◌≤◌, ℕ, List, Err, None, true, length, IfOk, IfErr, MatchResult};
ghost use Rattle.ib_map.specs.Space.{has_pages};
ghost use Rattle.ib_logrec.specs.declared.entry.Entry.{Entry as LogEntry};
ghost use Rattle.ib_logrec.specs.Log.{map_of};
ghost use Rattle.ib_walk.specs.Trees.{content_of as content_in};
ghost use Rattle.ib_walk.specs.Words.{IsLawfulMemory, memory_of};
ghost use Rattle.ib_replay.specs.Replays.{IsMemory};
ghost use Rattle.ib_image.specs.declared.copy.CopiedPage.{CopiedPage as Page};
ghost use Rattle.ib_image.specs.declared.fault.ImageFault.{ImageFault as Fault};
ghost use Rattle.ib_image.specs.declared.fault.ImageFault.TheVariants.{OutOfMemory};
ghost use Rattle.ib_image.specs.Copies.{restored};
ghost use Rattle.ib_image.specs.ImageFaults.{IsFaultBehind, IsImageFault, front_fault};
ghost use Rattle.ib_image.specs.ImageFiles.{number_of};
ghost use Rattle.ib_image.specs.Parsed.{copy_in, of_tail, tail_in};
ghost use Rattle.ib_image.specs.Restored.{IsFileOfCopy, IsImageFile, IsRestored, IsRestoredBehind, IsRestoredMemory};

use crate::fault::ImageFault;
use crate::front::{Front, front_of, number_of};
use crate::parts::{images_in, numbers_of, starts_in, test_places};
use crate::restored::{Restored, restore_images};
use crate::tail::read_tail;
use ib_logrec::LogFault;
use std::alloc::Global;

// A fault of the tail as one of the file.
fn tail_fault(fault: LogFault) -> ImageFault
    ensures { result ≡ of_tail fault }
{
    match fault {
        LogFault::OutOfMemory => ImageFault::OutOfMemory,
        fault => ImageFault::Tail { fault },
    }
}

// What stands behind the front restores this, or its first fault.
fn restore_behind(alloc: Global, front: Front, numbers: &[u64]) -> Result<Restored, ImageFault>
    requires few { length numbers.now < 2 ^ 32 }
    requires space { has_pages front.pages ≡ true }
    requires whole { number_of front.pages ≤ length numbers.now }
    ensures restored { IfOk result (λ r. IsRestoredBehind front.first (copy_in numbers.now front.pages)
        (tail_in numbers.now front.pages) r.memory) }
    ensures map { IfOk result (λ r. r.map ≡ content_in (memory_of r.memory) 1) }
    ensures fault { IfErr result (λ fault. (fault ≡ OutOfMemory) ⊎ IsFaultBehind front.first
        (copy_in numbers.now front.pages) (tail_in numbers.now front.pages) fault) }
{
    let pages = front.pages as usize;
    let tail = match read_tail(alloc, front.pages, &numbers[number_of(pages)..]) {
        Ok(tail) => tail,
        Err(fault) => return Err(tail_fault(fault)),
    };
    test_places(front, tail.len(), numbers)?;
    let images = images_in(alloc, numbers, pages)?;
    let starts = starts_in(alloc, numbers, front, tail.len())?;
    restore_images(alloc, images, &starts, &tail)
}

// What an image file restores, or its first fault.
fn restore_bytes(alloc: Global, bytes: &[u8]) -> Result<Restored, ImageFault>
    requires small { length bytes.now < 2 ^ 35 }
    ensures restored { IfOk result (λ r. IsRestored bytes.now r.memory) }
    ensures map { IfOk result (λ r. r.map ≡ content_in (memory_of r.memory) 1) }
    ensures fault { IfErr result (λ fault. (fault ≡ OutOfMemory) ⊎ IsImageFault bytes.now fault) }
    ensures memory { result ≡ Err ImageFault.OutOfMemory → front_fault bytes.now ≡ None }
{
    let front = front_of(bytes)?;
    let numbers = numbers_of(alloc, bytes)?;
    restore_behind(alloc, front, &numbers)
}

/// What an image file restores: the memory that its copy and its tail give, each page from its own place on, and the map
/// of the tree in it, as a backup is prepared by its redo before it is used. A fault is the first one of the file: a
/// length that is no whole number of numbers; fewer than three numbers; a number in front that may not stand there; fewer
/// numbers than all pages have; the first fault of the words of the tail; the place of a page that isn't from the first
/// place up to the tail's end, or of page 0 that isn't the first; a memory that is no lawful tree. What the log says before
/// the tail is not known, so the tail is tested for its grammar alone, and not for its numbers and changes.
///
/// ```
/// let restored = restore(alloc, &bytes)?;
/// let value = restored.map().get(key);
/// ```
pub fn restore(alloc: Global, bytes: &[u8]) -> Result<Restored, ImageFault>
    requires small { length bytes.now < 2 ^ 35 }

    // The bytes are the image file of a copy and a tail that restore this memory, which is lawful.
    ensures restored { IfOk result (λ r. IsRestored bytes.now r.memory) }
    ensures map { IfOk result (λ r. r.map ≡ content_in (memory_of r.memory) 1) }

    // An image file that restores a lawful memory is read as the copy and the tail that it is the file of.
    ensures only { (copy : List Page) (tail : List LogEntry) → IsImageFile bytes.now copy tail
        → IsLawfulMemory (length copy) 1 (restored copy tail)
        → MatchResult result (λ r. IsRestoredMemory copy tail r.memory) (λ fault. fault ≡ OutOfMemory) }

    // Of the file of a copy of a lawful log and its tail the memory after the log is restored, and the map of the log.
    ensures log { (pages : ℕ) (log : List LogEntry) (copy : List Page) → IsFileOfCopy bytes.now pages log copy
        → MatchResult result (λ r. IsMemory pages log r.memory × (r.map ≡ map_of log)) (λ fault. fault ≡ OutOfMemory) }

    // Which fault it is, and that bytes with a fault are refused for that one alone, or for want of memory, where the
    // fault is not that of the numbers in front.
    ensures fault { IfErr result (λ fault. (fault ≡ OutOfMemory) ⊎ IsImageFault bytes.now fault) }
    ensures refused { (other : Fault) → IsImageFault bytes.now other
        → MatchResult result (λ _. ⊥) (λ fault. (fault ≡ OutOfMemory) ⊎ (fault ≡ other)) }
    ensures memory { result ≡ Err ImageFault.OutOfMemory → front_fault bytes.now ≡ None }
{
    restore_bytes(alloc, bytes)
}
