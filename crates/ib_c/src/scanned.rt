//! What a scan of the tree came to, as C is told of it.

ghost use Rattle.std.specs.Prelude.{◌≡◌};
ghost use Rattle.ib_c.specs.Scanned.{scanned_only, told_halt, told_next, told_refused, told_scan, told_some};

use crate::status::Status;
use ib_cursor::NowaitFault;
use ib_map::{Chunks, Key, Record};
use ib_scan_nowait::Halt;

/// What a scan came to: how many chunks and pairs were written; where all was scanned, its place in the log; and else the
/// two words of the key at which the next chunk begins, and the latch that was not had, with the words of the looks. What
/// is not told is 0.
#[repr(C)]
#[derive(Clone, Copy, PartialEq, Eq, Debug)]
pub struct Scanned {
    pub status: u32,
    pub chunks: u32,
    pub pairs: u32,
    pub place: u32,
    pub next_first: u64,
    pub next_second: u64,
    pub latch: u32,
    pub expected: i32,
    pub found: i32,
}

impl Scanned {
    /// A status alone.
    pub(crate) fn only(status: Status) -> Scanned
        ensures { result ≡ scanned_only status }
    {
        Scanned {
            status: status.number(),
            chunks: 0,
            pairs: 0,
            place: 0,
            next_first: 0,
            next_second: 0,
            latch: 0,
            expected: 0,
            found: 0,
        }
    }

    // With how many chunks and pairs there are.
    fn some(status: Status, held: &Chunks) -> Scanned
        ensures { result ≡ told_some status held.now }
    {
        // For the proof: 32 bits count them.
        let _ = held.room();
        Scanned {
            chunks: held.list().len() as u32,
            pairs: held.pairs().len() as u32,
            ..Scanned::only(status)
        }
    }

    // With the words of the key at which the next chunk begins.
    fn next(status: Status, next: Key, held: &Chunks) -> Scanned
        ensures { result ≡ told_next status next held.now }
    {
        let (next_first, next_second) = next.words();
        Scanned {
            next_first,
            next_second,
            ..Scanned::some(status, held)
        }
    }
}

// A latch that was not had on the way to the next chunk.
fn told_refused(next: Key, fault: NowaitFault, held: &Chunks) -> Scanned
    ensures { result ≡ told_refused next fault held.now }
{
    match fault {
        NowaitFault::Busy { latch, word } => Scanned {
            latch: latch.0,
            found: word.0,
            ..Scanned::next(Status::Busy, next, held)
        },
        NowaitFault::Raced {
            latch,
            expected,
            found,
        } => Scanned {
            latch: latch.0,
            expected: expected.0,
            found: found.0,
            ..Scanned::next(Status::Raced, next, held)
        },
    }
}

// Why a scan ended before all was scanned.
fn told_halt(halt: Halt, held: &Chunks) -> Scanned
    ensures { result ≡ told_halt halt held.now }
{
    match halt {
        Halt::NoRoom { next } => Scanned::next(Status::NoRoom, next, held),
        Halt::Refused { next, fault } => told_refused(next, fault, held),
    }
}

/// What the tree's scan came to, in C's words.
pub(crate) fn told_scan(answer: Result<Record, Halt>, held: &Chunks) -> Scanned
    ensures { result ≡ told_scan answer held.now }
{
    match answer {
        Ok(record) => Scanned {
            place: record.place,
            ..Scanned::some(Status::Done, held)
        },
        Err(halt) => told_halt(halt, held),
    }
}
