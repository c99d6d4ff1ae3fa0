//! What the log in a file makes, for C.

ghost use Rattle.std.specs.Prelude.{◌≡◌, ◌⊎◌, ℕ, ◌+◌, ◌*◌, ◌^◌, ◌<◌, ◌≤◌, ◌++◌, List, length, take, drop};
ghost use Rattle.ib_logrec.specs.declared.entry.Entry.{Entry};
ghost use Rattle.ib_logrec.specs.declared.fault.LogFault.{LogFault as Fault};
ghost use Rattle.ib_replay.specs.RawLogs.{IsRawFault, IsRawLog};
ghost use Rattle.ib_c.specs.declared.status.Status.TheVariants.{BadLog, OutOfMemory};
ghost use Rattle.ib_c.specs.Replays.{HasPutPairs, HasReplayed, IsToldFault, IsToldLog, IsToldNothing, fault_number, fault_place, fault_word, full_number, pair_words, pairs_words, rule_number, told_counts, told_fault, told_nothing, told_refusal};

use crate::status::Status;
use ib_logrec::{FullKind, LogFault, UnlawfulKind};
use ib_map::{Key, PlainMap};
use ib_replay::{Replayed as ReplayedLog, replay_file};
use std::alloc::Global;

/// One more than the most bytes of the file of a log.
const END_BYTES: usize = 1 << 35;

const _: () = prove!(END_BYTES == 1 << 35);

/// How many words a pair takes.
pub(crate) const PAIR_WORDS: usize = 3;

const _: () = prove!(PAIR_WORDS == 3);

/// What a replay came to: its status; of a lawful log its pages, and how many entries and pairs it has; of another its first
/// fault by its number, where it stands, and the word that is wrong there. What is not told is 0.
#[repr(C)]
#[derive(Clone, Copy, PartialEq, Eq, Debug)]
pub struct Replayed {
    pub status: u32,
    pub pages: u32,
    pub entries: u64,
    pub pairs: u64,
    pub fault: u32,
    pub place: u32,
    pub word: u64,
}

// The number of a fault.
fn fault_number(fault: LogFault) -> u32
    ensures { result ≡ fault_number fault }
{
    match fault {
        LogFault::Short { .. } => 1,
        LogFault::BadHead { .. } => 2,
        LogFault::BadWrite { .. } => 3,
        LogFault::Outside { .. } => 4,
        LogFault::OddLength { .. } => 5,
        LogFault::BadFile { .. } => 6,
        LogFault::Unlawful { .. } => 7,
        LogFault::CannotPlan { .. } => 8,
        LogFault::OutOfMemory => 9,
    }
}

// Where a fault stands.
fn fault_place(fault: LogFault) -> u32
    ensures { result ≡ fault_place fault }
{
    match fault {
        LogFault::Short { place }
        | LogFault::BadHead { place, .. }
        | LogFault::BadWrite { place, .. }
        | LogFault::Outside { place, .. }
        | LogFault::Unlawful { place, .. }
        | LogFault::CannotPlan { place, .. } => place,
        LogFault::BadFile { at, .. } => at,
        LogFault::OddLength { .. } | LogFault::OutOfMemory => 0,
    }
}

// The number of a rule that an entry breaks.
fn rule_number(kind: UnlawfulKind) -> u64
    ensures { result ≡ rule_number kind }
{
    match kind {
        UnlawfulKind::Number => 1,
        UnlawfulKind::Change => 2,
        UnlawfulKind::Tree => 3,
    }
}

// The number of what is full.
fn full_number(why: FullKind) -> u64
    ensures { result ≡ full_number why }
{
    match why {
        FullKind::High => 1,
        FullKind::Space => 2,
    }
}

// What is wrong there.
fn fault_word(fault: LogFault) -> u64
    ensures { result ≡ fault_word fault }
{
    match fault {
        LogFault::BadHead { word, .. }
        | LogFault::BadWrite { word, .. }
        | LogFault::Outside { word, .. }
        | LogFault::BadFile { word, .. } => word,
        LogFault::OddLength { bytes } => bytes as u64,
        LogFault::Unlawful { kind, .. } => rule_number(kind),
        LogFault::CannotPlan { why, .. } => full_number(why),
        LogFault::Short { .. } | LogFault::OutOfMemory => 0,
    }
}

// A status alone.
fn told_nothing(status: Status) -> Replayed
    ensures { result ≡ told_nothing status }
{
    Replayed {
        status: status.number(),
        pages: 0,
        entries: 0,
        pairs: 0,
        fault: 0,
        place: 0,
        word: 0,
    }
}

// A fault.
fn told_fault(fault: LogFault) -> Replayed
    ensures { result ≡ told_fault fault }
{
    Replayed {
        status: Status::Faulty.number(),
        pages: 0,
        entries: 0,
        pairs: 0,
        fault: fault_number(fault),
        place: fault_place(fault),
        word: fault_word(fault),
    }
}

// A fault, or want of memory.
fn told_refusal(fault: LogFault) -> Replayed
    ensures { result ≡ told_refusal fault }
{
    match fault {
        LogFault::OutOfMemory => told_nothing(Status::OutOfMemory),
        fault => told_fault(fault),
    }
}

// A log that was replayed.
fn told_counts(status: Status, log: &ReplayedLog) -> Replayed
    requires { length log.now.memory < 2 ^ 32 }
    ensures { result ≡ told_counts status (length log.now.memory) (length log.now.entries.items) (length log.now.map) }
{
    Replayed {
        status: status.number(),
        pages: log.memory.images().len() as u32,
        entries: log.entries.len() as u64,
        pairs: log.map.len() as u64,
        fault: 0,
        place: 0,
        word: 0,
    }
}

// Writes the words of a pair from this place on.
fn put_pair(key: Key, value: u64, out: &mut [u64], at: usize)
    requires { at + 3 ≤ length out.old }
    ensures { out.new ≡ take at out.old ++ pair_words (key, value) ++ drop (at + 3) out.old }
{
    let (first, second) = key.words();
    out[at] = first;
    out[at + 1] = second;
    out[at + 2] = value;
}

/// Writes the words of the pairs to the front.
pub(crate) fn put_all(pairs: &[(Key, u64)], out: &mut [u64])
    requires { 3 * length pairs.now ≤ length out.old }
    ensures { out.new ≡ pairs_words pairs.now ++ drop (3 * length pairs.now) out.old }
{
    for (k, (key, value)) in pairs.iter().enumerate() {
        put_pair(*key, *value, out, 3 * k);
    }
}

// Writes the words of a map's pairs to the front, where there is room for them.
fn put_pairs(map: &PlainMap, out: &mut [u64]) -> Status
    ensures { HasPutPairs map.now out.old result out.new }
{
    let pairs = map.range(Key::least(), Key::greatest());
    if out.len() / 3 < pairs.len() {
        return Status::BadRange;
    }
    put_all(pairs, out);
    Status::Done
}

// What the log in a file makes, or its first fault.
fn replay(alloc: Global, bytes: &[u8], out: &mut [u64]) -> Replayed
    requires small { length bytes.now < 2 ^ 35 }
    ensures answer { HasReplayed bytes.now out.old result out.new }
    ensures only { (pages : ℕ) (log : List Entry) → IsRawLog bytes.now pages log
        → IsToldLog pages log out.old result out.new ⊎ IsToldNothing OutOfMemory out.old result out.new }
    ensures refused { (fault : Fault) → IsRawFault bytes.now fault
        → IsToldFault fault out.old result out.new ⊎ IsToldNothing OutOfMemory out.old result out.new }
{
    match replay_file(alloc, bytes) {
        Ok(log) => {
            let status = put_pairs(&log.map, out);
            told_counts(status, &log)
        }
        Err(fault) => told_refusal(fault),
    }
}

/// Replays the log in a file, and writes the pairs of the map that it makes, in order of keys, three words a pair: the two
/// of its key, and its value (`recv_recovery_from_checkpoint_start`, `recv_apply_hashed_log_recs`).
#[unsafe(no_mangle)]
pub extern "C" fn ib_c_replay(alloc: Global, bytes: &[u8], out: &mut [u64]) -> Replayed
    // No log has so many bytes.
    ensures long { 2 ^ 35 ≤ length bytes.now → IsToldNothing BadLog out.old result out.new }

    // The lawful log is told that the bytes are the file of, or their first fault, or that memory lacks.
    ensures answer { length bytes.now < 2 ^ 35 → HasReplayed bytes.now out.old result out.new }

    // The file of a lawful log is told as that log, and bytes with a fault for that one alone, unless memory lacks.
    ensures only { (pages : ℕ) (log : List Entry) → length bytes.now < 2 ^ 35 → IsRawLog bytes.now pages log
        → IsToldLog pages log out.old result out.new ⊎ IsToldNothing OutOfMemory out.old result out.new }
    ensures refused { (fault : Fault) → length bytes.now < 2 ^ 35 → IsRawFault bytes.now fault
        → IsToldFault fault out.old result out.new ⊎ IsToldNothing OutOfMemory out.old result out.new }
{
    if bytes.len() >= END_BYTES {
        return told_nothing(Status::BadLog);
    }
    replay(alloc, bytes, out)
}
