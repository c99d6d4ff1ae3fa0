//! The wishes and the releases that the library refuses by itself.

ghost use Rattle.std.specs.Prelude.{◌≡◌, ◌↔◌, ◌<◌, IfNone, IfOk, IfErr, IfSome, IsTrue};
ghost use Rattle.ib_layout.specs.Places.{latches_of};
ghost use Rattle.ib_core.specs.Holders.{CanWish};
ghost use Rattle.ib_core.specs.declared.phase.Phase.TheVariants.{Free};
ghost use Rattle.ib_c.specs.Wishes.{HasNoSxAlone, IsGrantedAt, IsRefusedFor, MayClaimNow, MayTryX, mode_number};

use crate::status::Status;
use crate::table::Table;
use ib_core::Phase;
use ib_levels::{Latch, Level, Mode};
use ib_rule::Pass;

/// Whether the space has the latch.
pub(crate) fn has_latch(table: &Table, latch: u32) -> bool
    ensures { IsTrue result ↔ (latch < latches_of table.now.sizes) }
{
    latch < table.latches().space().geometry().pages() + 2
}

/// Whether the pass may take a first grant: the level, or why not.
pub(crate) fn may_take(table: &Table, pass: &Pass, latch: u32, level: u32) -> Result<Level, Status>
    ensures granted { IfOk result (IsGrantedAt CanWish latch level table.now pass.now) }
    ensures refused { IfErr result (IsRefusedFor CanWish latch level table.now pass.now) }
{
    if !has_latch(table, latch) {
        return Err(Status::BadLatch);
    }
    let Some(level) = Level::from_number(level) else {
        return Err(Status::BadLevel);
    };
    if !pass.can_wish(Latch(latch), level) {
        return Err(Status::NotAllowed);
    }
    if !pass.may_grow() {
        return Err(Status::TooManyGrants);
    }
    Ok(level)
}

/// Whether the pass may take a grant of SX or X: the level, or why not.
pub(crate) fn may_claim(table: &Table, pass: &Pass, latch: u32, level: u32) -> Result<Level, Status>
    ensures granted { IfOk result (IsGrantedAt MayClaimNow latch level table.now pass.now) }
    ensures refused { IfErr result (IsRefusedFor MayClaimNow latch level table.now pass.now) }
{
    if !has_latch(table, latch) {
        return Err(Status::BadLatch);
    }
    let Some(level) = Level::from_number(level) else {
        return Err(Status::BadLevel);
    };
    if !may_claim_now(pass, Latch(latch), level) {
        return Err(Status::NotAllowed);
    }
    if !pass.may_grow() {
        return Err(Status::TooManyGrants);
    }
    Ok(level)
}

/// Whether the pass may take X by a try: the level, or why not.
pub(crate) fn may_try_x(table: &Table, pass: &Pass, latch: u32, level: u32) -> Result<Level, Status>
    ensures granted { IfOk result (IsGrantedAt MayTryX latch level table.now pass.now) }
    ensures refused { IfErr result (IsRefusedFor MayTryX latch level table.now pass.now) }
{
    if !has_latch(table, latch) {
        return Err(Status::BadLatch);
    }
    let Some(level) = Level::from_number(level) else {
        return Err(Status::BadLevel);
    };
    if !(may_claim_now(pass, Latch(latch), level) && has_no_sx_alone(pass, Latch(latch))) {
        return Err(Status::NotAllowed);
    }
    if !pass.may_grow() {
        return Err(Status::TooManyGrants);
    }
    Ok(level)
}

// Whether it is in the middle of nothing, and may wish for SX or X.
fn may_claim_now(pass: &Pass, latch: Latch, level: Level) -> bool
    ensures { IsTrue result ↔ MayClaimNow latch.0 level pass.now.view.session }
{
    is_free(pass) && pass.may_claim(latch, level)
}

// Whether X is owned beside each SX.
fn has_no_sx_alone(pass: &Pass, latch: Latch) -> bool
    ensures { IsTrue result ↔ HasNoSxAlone latch.0 pass.now.view.session }
{
    let counts = pass.counts(latch);
    counts.sx == 0 || counts.x > 0
}

/// Whether the session is in the middle of nothing.
pub(crate) fn is_free(pass: &Pass) -> bool
    ensures { IsTrue result ↔ (pass.now.view.session.phase ≡ Free) }
{
    matches!(pass.phase(), Phase::Free)
}

/// The mode with this number: S is 0, SX is 1, X is 2.
pub(crate) fn mode_of(number: u32) -> Option<Mode>
    ensures some { IfSome result (λ mode. mode_number mode ≡ number) }
    ensures none { IfNone result (2 < number) }
{
    match number {
        0 => Some(Mode::S),
        1 => Some(Mode::Sx),
        2 => Some(Mode::X),
        _ => None,
    }
}
