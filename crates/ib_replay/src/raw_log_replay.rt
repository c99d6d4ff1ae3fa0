//! What the log in a file makes.

ghost use Rattle.std.specs.Prelude.{◌≡◌, ◌⊎◌, ◌^◌, ◌<◌, ℕ, List, Err, None, length, IfOk, IfErr, MatchResult};
ghost use Rattle.ib_logrec.specs.declared.entry.Entry.{Entry};
ghost use Rattle.ib_logrec.specs.declared.fault.LogFault.{LogFault as Fault};
ghost use Rattle.ib_logrec.specs.Log.{map_of};
ghost use Rattle.ib_replay.specs.Files.{file_fault};
ghost use Rattle.ib_replay.specs.RawLogs.{IsRawFault, IsRawLog, IsReplayed};

use crate::file::read_log;
use crate::log_replay::{Replayed, replay};
use ib_logrec::LogFault;
use std::alloc::Global;

/// What the log in a file makes of the opening memory of its space and of the empty map. A fault is the first one:
/// of the file, or of the words of an entry, or of its number, or of its change, or that its pages are no tree with
/// what the map has.
pub fn replay_file(alloc: Global, bytes: &[u8]) -> Result<Replayed, LogFault>
    requires small { length bytes.now < 2 ^ 35 }

    // The bytes are the file of the entries, which are lawful, and the memory is the one after them.
    ensures log { IfOk result (λ replayed. IsReplayed bytes.now replayed.entries.items replayed.memory) }
    ensures map { IfOk result (λ replayed. replayed.map ≡ map_of replayed.entries.items) }

    // The file of a lawful log is read as that log.
    ensures only { (pages : ℕ) (log : List Entry) → IsRawLog bytes.now pages log
        → MatchResult result (λ replayed. replayed.entries.items ≡ log) (λ fault. fault ≡ LogFault.OutOfMemory) }

    // Which fault it is, and that bytes with a fault are refused for that one alone, or for want of memory, where the
    // fault is not the file's own.
    ensures fault { IfErr result (λ fault. (fault ≡ LogFault.OutOfMemory) ⊎ IsRawFault bytes.now fault) }
    ensures refused { (other : Fault) → IsRawFault bytes.now other
        → MatchResult result (λ _. ⊥) (λ fault. (fault ≡ LogFault.OutOfMemory) ⊎ (fault ≡ other)) }
    ensures memory { result ≡ Err LogFault.OutOfMemory → file_fault bytes.now ≡ None }
{
    replay_bytes(alloc, bytes)
}

// The log in a file, replayed, or its first fault.
fn replay_bytes(alloc: Global, bytes: &[u8]) -> Result<Replayed, LogFault>
    requires small { length bytes.now < 2 ^ 35 }
    ensures log { IfOk result (λ replayed. IsReplayed bytes.now replayed.entries.items replayed.memory) }
    ensures map { IfOk result (λ replayed. replayed.map ≡ map_of replayed.entries.items) }
    ensures fault { IfErr result (λ fault. (fault ≡ LogFault.OutOfMemory) ⊎ IsRawFault bytes.now fault) }
    ensures memory { result ≡ Err LogFault.OutOfMemory → file_fault bytes.now ≡ None }
{
    let log = read_log(alloc, bytes)?;
    replay(alloc, log.pages(), log.words())
}
