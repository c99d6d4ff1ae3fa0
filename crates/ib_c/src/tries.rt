//! The tries.

ghost use Rattle.std.specs.Prelude.{◌≡◌, ◌<◌, IfErr, IfOk};
ghost use Rattle.ib_layout.specs.Places.{latches_of};
ghost use Rattle.ib_rule.specs.Pass.{IsOf};
ghost use Rattle.ib_c.specs.Tries.{HasLookedReady, HasReservedX, HasTriedS, HasTriedSx, HasTriedX, IsNextOn, IsRefusedIn, told, told_only, told_ready, told_reserve};

use crate::status::Status;
use crate::table::Table;
use crate::wishes::{has_latch, may_claim, may_take, may_try_x};
use ib_core::Phase;
use ib_latch::{NotReady, Reserve, TryFault};
use ib_levels::Latch;
use ib_rule::Pass;

/// What a try came to: its status, and the words of its looks, which are 0 where none is told.
#[repr(C)]
#[derive(Clone, Copy, PartialEq, Eq, Debug)]
pub struct Tried {
    pub status: u32,
    pub expected: i32,
    pub found: i32,
}

impl Tried {
    /// A status with no words.
    pub(crate) fn only(status: Status) -> Tried
        ensures { result ≡ told_only status }
    {
        Tried {
            status: status.number(),
            expected: 0,
            found: 0,
        }
    }
}

// What a try came to, in C's words.
fn told(tried: Result<(), TryFault>) -> Tried
    ensures { result ≡ told tried }
{
    match tried {
        Ok(()) => Tried::only(Status::Done),
        Err(TryFault::Busy { word }) => Tried {
            status: Status::Busy.number(),
            expected: 0,
            found: word.0,
        },
        Err(TryFault::Raced { expected, found }) => Tried {
            status: Status::Raced.number(),
            expected: expected.0,
            found: found.0,
        },
    }
}

/// What a reservation came to, in C's words.
pub(crate) fn told_reserve(tried: Result<Reserve, TryFault>) -> Tried
    ensures { result ≡ told_reserve tried }
{
    match tried {
        Ok(Reserve::Owned) => Tried::only(Status::Done),
        Ok(Reserve::Next { word }) => Tried {
            status: Status::Next.number(),
            expected: 0,
            found: word.0,
        },
        Err(fault) => told(Err(fault)),
    }
}

// What a look of the next writer came to, in C's words.
fn told_ready(looked: Result<(), NotReady>) -> Tried
    ensures { result ≡ told_ready looked }
{
    match looked {
        Ok(()) => Tried::only(Status::Done),
        Err(NotReady { word }) => Tried {
            status: Status::NotReady.number(),
            expected: 0,
            found: word.0,
        },
    }
}

/// A try for S.
pub(crate) fn try_s(table: &Table, pass: &mut Pass, latch: u32, level: u32) -> Tried
    requires own { IsOf table.now pass.old }
    ensures own { IsOf table.now pass.new }
    ensures tried { HasTriedS latch level table.now pass.old result pass.new }
{
    match may_take(table, pass, latch, level) {
        Err(status) => Tried::only(status),
        Ok(level) => told(table.latches().try_s(pass, Latch(latch), level)),
    }
}

/// A try for SX.
pub(crate) fn try_sx(table: &Table, pass: &mut Pass, latch: u32, level: u32) -> Tried
    requires own { IsOf table.now pass.old }
    ensures own { IsOf table.now pass.new }
    ensures tried { HasTriedSx latch level table.now pass.old result pass.new }
{
    match may_claim(table, pass, latch, level) {
        Err(status) => Tried::only(status),
        Ok(level) => told(table.latches().try_sx(pass, Latch(latch), level)),
    }
}

/// A try for X.
pub(crate) fn try_x(table: &Table, pass: &mut Pass, latch: u32, level: u32) -> Tried
    requires own { IsOf table.now pass.old }
    ensures own { IsOf table.now pass.new }
    ensures tried { HasTriedX latch level table.now pass.old result pass.new }
{
    match may_try_x(table, pass, latch, level) {
        Err(status) => Tried::only(status),
        Ok(level) => told(table.latches().try_x(pass, Latch(latch), level)),
    }
}

/// A reservation of X.
pub(crate) fn reserve_x(table: &Table, pass: &mut Pass, latch: u32, level: u32) -> Tried
    requires own { IsOf table.now pass.old }
    ensures own { IsOf table.now pass.new }
    ensures reserved { HasReservedX latch level table.now pass.old result pass.new }
{
    match may_claim(table, pass, latch, level) {
        Err(status) => Tried::only(status),
        Ok(level) => told_reserve(table.latches().reserve_x(pass, Latch(latch), level)),
    }
}

/// A look of the next writer.
pub(crate) fn ready_x(table: &Table, pass: &mut Pass, latch: u32) -> Tried
    requires own { IsOf table.now pass.old }
    ensures own { IsOf table.now pass.new }
    ensures looked { HasLookedReady latch table.now pass.old result pass.new }
{
    match may_ready(table, pass, latch) {
        Err(status) => Tried::only(status),
        Ok(()) => told_ready(table.latches().ready_x(pass, Latch(latch))),
    }
}

// Whether the session is the next writer of the latch, or why the call is refused.
fn may_ready(table: &Table, pass: &Pass, latch: u32) -> Result<(), Status>
    ensures ok { IfOk result (λ x. (latch < latches_of table.now.sizes)
        × IsNextOn latch pass.now.view.session.phase) }
    ensures refused { IfErr result (IsRefusedIn IsNextOn latch table.now pass.now) }
{
    if !has_latch(table, latch) {
        return Err(Status::BadLatch);
    }
    match pass.phase() {
        Phase::Next { latch: at, .. } if at == latch => Ok(()),
        _ => Err(Status::WrongPhase),
    }
}
