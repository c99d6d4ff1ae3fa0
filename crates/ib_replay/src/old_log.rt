//! What a log file of version 1 brings over.

ghost use Rattle.std.specs.Prelude.{◌≡◌, ◌⊎◌, ◌^◌, ◌<◌, ℕ, List, Err, None, length, IfOk, IfErr, MatchResult};
ghost use Rattle.ib_logrec.specs.declared.fault.LogFault.{LogFault as Fault};
ghost use Rattle.ib_replay.specs.OldLogs.{IsBroughtOver, IsOldFault, old_file_fault};

use crate::file::{RawLog, read_old_log};
use ib_logrec::LogFault;
use ib_upgrade::plan_anew;
use std::alloc::Global;

/// A log of the version that is written today, which an older one was brought over to: how many pages its space has, and its
/// words.
pub type Brought = RawLog;

/// Brings over the log in a file of version 1: each key becomes the key of the eight bytes of its number, and each change is
/// planned anew on the pages as they are by then. What the old log says of words of pages is tested for its grammar alone, and
/// not used. A fault is the first one: of the file, or of the words of an entry, or of its number, or of its change, or that
/// its insert finds the tree or the space full.
pub fn bring_over(alloc: Global, bytes: &[u8]) -> Result<Brought, LogFault>
    requires small { length bytes.now < 2 ^ 35 }

    // The bytes are the file of an old log; the words are those of a kept log with its changes, in a space of as many pages.
    ensures brought { IfOk result (λ brought. IsBroughtOver bytes.now brought.pages brought.words) }

    // An old log all of whose changes can be planned anew is brought over.
    ensures only { (pages : ℕ) (words : List ℕ) → IsBroughtOver bytes.now pages words
        → MatchResult result (λ brought. brought.pages ≡ pages) (λ fault. fault ≡ LogFault.OutOfMemory) }

    // Which fault it is, and that bytes with a fault are refused for that one alone, or for want of memory, where the
    // fault is not the file's own.
    ensures fault { IfErr result (λ fault. (fault ≡ LogFault.OutOfMemory) ⊎ IsOldFault bytes.now fault) }
    ensures refused { (other : Fault) → IsOldFault bytes.now other
        → MatchResult result (λ _. ⊥) (λ fault. (fault ≡ LogFault.OutOfMemory) ⊎ (fault ≡ other)) }
    ensures memory { result ≡ Err LogFault.OutOfMemory → old_file_fault bytes.now ≡ None }
{
    bring_bytes(alloc, bytes)
}

// The log in a file of version 1, brought over, or its first fault.
fn bring_bytes(alloc: Global, bytes: &[u8]) -> Result<Brought, LogFault>
    requires small { length bytes.now < 2 ^ 35 }
    ensures brought { IfOk result (λ brought. IsBroughtOver bytes.now brought.pages brought.words) }
    ensures fault { IfErr result (λ fault. (fault ≡ LogFault.OutOfMemory) ⊎ IsOldFault bytes.now fault) }
    ensures memory { result ≡ Err LogFault.OutOfMemory → old_file_fault bytes.now ≡ None }
{
    let old = read_old_log(alloc, bytes)?;
    let words = plan_anew(alloc, old.pages(), old.words())?;
    Ok(RawLog::new(old.pages(), words))
}
