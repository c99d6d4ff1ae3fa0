//! What a call on the tree came to, as C is told of it.

ghost use Rattle.std.specs.Prelude.{◌≡◌};
ghost use Rattle.ib_c.specs.Answers.{answered_only, refused_latch, replied, reply_number, told_answer, told_call, told_fault, told_reply};

use crate::status::Status;
use ib_cursor::NowaitFault;
use ib_levels::Latch;
use ib_map::{Record, Reply};

/// What a call on the tree came to: which reply, at which place of the log, with the value that was found or taken out,
/// or the numbers of a full log or space; or the latch that was not had, with the words of the looks. What is not told
/// is 0.
#[repr(C)]
#[derive(Clone, Copy, PartialEq, Eq, Debug)]
pub struct Answered {
    pub status: u32,
    pub reply: u32,
    pub value: u64,
    pub place: u32,
    pub latch: u32,
    pub expected: i32,
    pub found: i32,
    pub used: u32,
    pub cap: u32,
    pub free: u32,
    pub need: u32,
}

impl Answered {
    // A status with no answer.
    fn only(status: Status) -> Answered
        ensures { result ≡ answered_only status }
    {
        Answered {
            status: status.number(),
            reply: 0,
            value: 0,
            place: 0,
            latch: 0,
            expected: 0,
            found: 0,
            used: 0,
            cap: 0,
            free: 0,
            need: 0,
        }
    }

    // A reply of this number at a place of the log.
    fn replied(reply: u32, place: u32) -> Answered
        ensures { result ≡ replied reply place }
    {
        Answered {
            reply,
            place,
            ..Answered::only(Status::Done)
        }
    }

    // A latch that was not had, with the words of the looks.
    fn refused(status: Status, latch: Latch, expected: i32, found: i32) -> Answered
        ensures { result ≡ refused_latch status latch expected found }
    {
        Answered {
            latch: latch.0,
            expected,
            found,
            ..Answered::only(status)
        }
    }
}

// The number of a reply in C.
fn reply_number(reply: Reply) -> u32
    ensures { result ≡ reply_number reply }
{
    match reply {
        Reply::Found { .. } => 1,
        Reply::NotFound => 2,
        Reply::Inserted => 3,
        Reply::Duplicate => 4,
        Reply::Deleted { .. } => 5,
        Reply::Missing => 6,
        Reply::TooHigh => 7,
        Reply::SpaceFull { .. } => 8,
        Reply::LogFull { .. } => 9,
        Reply::Scanned { .. } => 10,
    }
}

// A reply at a place of the log, in C's words.
fn told_reply(reply: Reply, place: u32) -> Answered
    ensures { result ≡ told_reply reply place }
{
    let replied = Answered::replied(reply_number(reply), place);
    match reply {
        Reply::Found { value } | Reply::Deleted { value } => Answered { value, ..replied },
        Reply::LogFull { used, cap } => Answered {
            used,
            cap,
            ..replied
        },
        Reply::SpaceFull { free, need } => Answered {
            free,
            need,
            ..replied
        },
        _ => replied,
    }
}

// The latch that was not had, in C's words.
fn told_fault(fault: NowaitFault) -> Answered
    ensures { result ≡ told_fault fault }
{
    match fault {
        NowaitFault::Busy { latch, word } => Answered::refused(Status::Busy, latch, 0, word.0),
        NowaitFault::Raced {
            latch,
            expected,
            found,
        } => Answered::refused(Status::Raced, latch, expected.0, found.0),
    }
}

// What the index's call came to, in C's words.
fn told_call(answer: Result<Record, NowaitFault>) -> Answered
    ensures { result ≡ told_call answer }
{
    match answer {
        Ok(record) => told_reply(record.reply, record.place),
        Err(fault) => told_fault(fault),
    }
}

/// The same, or why no call was made.
pub(crate) fn told_answer(answer: Result<Result<Record, NowaitFault>, Status>) -> Answered
    ensures { result ≡ told_answer answer }
{
    match answer {
        Ok(answer) => told_call(answer),
        Err(status) => Answered::only(status),
    }
}
