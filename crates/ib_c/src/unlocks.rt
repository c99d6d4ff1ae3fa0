//! The releases. What the library's own call does with a raise is to wake: here its caller is told of it, so each release
//! is made of the steps of that call.

ghost use Rattle.std.specs.Prelude.{◌≡◌, ◌<◌, IfErr, IfOk, if◌then◌else◌};
ghost use Rattle.ib_levels.specs.declared.level.Mode.TheVariants.{Sx as ModeSx, X as ModeX};
ghost use Rattle.ib_levels.specs.Holding.{without_latch};
ghost use Rattle.ib_layout.specs.Places.{latches_of};
ghost use Rattle.ib_core.specs.declared.phase.Phase.TheVariants.{Free, OwesClear, OwesLook, OwesRaise};
ghost use Rattle.ib_core.specs.declared.event.Event.TheVariants.{Clear, Look};
ghost use Rattle.ib_core.specs.Sessions.{reads, sx_grants, x_grants};
ghost use Rattle.ib_core.specs.Takings.{given_back};
ghost use Rattle.ib_rule.specs.Afterwards.{phased};
ghost use Rattle.ib_rule.specs.Pass.{IsOf, with_view};
ghost use Rattle.ib_rule.specs.Turns.{IsInPhase};
ghost use Rattle.ib_latch.specs.Unlocks.{IsPaidOff, IsReleased, sx_steps};
ghost use Rattle.ib_c.specs.Unlocks.{HasReleasedS, HasReleasedSx, HasReleasedX, IsPaid, IsRefusedRelease, IsSRaise, IsSxRaise, IsTurnBy, IsXRaise, TellsRaise, told_raise};

use crate::status::Status;
use crate::table::Table;
use crate::wishes::{has_latch, is_free};
use ib_levels::Latch;
use ib_rule::Pass;
use ib_word::is_drained;

/// Which generation of the latch a release raised, and to what.
#[derive(Clone, Copy, PartialEq, Eq, Debug)]
pub(crate) enum Raise {
    /// None: nobody who sleeps is to be woken.
    Nothing,
    /// The generation, on which sleepers wait for a first grant.
    Generation { now: u64 },
    /// The ex generation, on which the next writer waits.
    ExGeneration { now: u64 },
}

/// What a release came to: its status, what it raised (0 nothing, 1 the generation, 2 the ex generation), and to what.
#[repr(C)]
#[derive(Clone, Copy, PartialEq, Eq, Debug)]
pub struct Released {
    pub status: u32,
    pub raised: u32,
    pub generation: u64,
}

/// A release in C's words.
pub(crate) fn told_raise(answer: Result<Raise, Status>) -> Released
    ensures { result ≡ told_raise answer }
{
    match answer {
        Err(status) => Released {
            status: status.number(),
            raised: 0,
            generation: 0,
        },
        Ok(Raise::Nothing) => Released {
            status: Status::Done.number(),
            raised: 0,
            generation: 0,
        },
        Ok(Raise::Generation { now }) => Released {
            status: Status::Done.number(),
            raised: 1,
            generation: now,
        },
        Ok(Raise::ExGeneration { now }) => Released {
            status: Status::Done.number(),
            raised: 2,
            generation: now,
        },
    }
}

// Whether a session that has so many grants of a mode on the latch may give one back, or why not.
fn may_release(table: &Table, pass: &Pass, latch: u32, count: u64) -> Result<(), Status>
    ensures ok { IfOk result (λ x. (latch < latches_of table.now.sizes)
        × (pass.now.view.session.phase ≡ Free) × (0 < count)) }
    ensures refused { IfErr result (IsRefusedRelease count latch table.now pass.now) }
{
    if !has_latch(table, latch) {
        return Err(Status::BadLatch);
    }
    if !is_free(pass) {
        return Err(Status::WrongPhase);
    }
    if count == 0 {
        return Err(Status::NotHeld);
    }
    Ok(())
}

/// Gives S back.
pub(crate) fn unlock_s(table: &Table, pass: &mut Pass, latch: u32) -> Released
    requires own { IsOf table.now pass.old }
    ensures own { IsOf table.now pass.new }
    ensures released { HasReleasedS latch table.now pass.old result pass.new }
{
    let count = pass.counts(Latch(latch)).s;
    match may_release(table, pass, latch, count) {
        Err(status) => told_raise(Err(status)),
        Ok(()) => told_raise(Ok(give_s(table, pass, Latch(latch)))),
    }
}

// Gives S back, and tells what was raised.
fn give_s(table: &Table, pass: &mut Pass, latch: Latch) -> Raise
    requires free { IsInPhase table.now latch.0 Free pass.old }
    requires holds { 0 < reads latch.0 pass.old.view.session }
    ensures own { IsOf table.now pass.new }
    ensures released { IsReleased 1 latch.0 (without_latch latch.0 pass.old.view.session.held)
        pass.old pass.new }
    ensures raised { IsSRaise latch.0 pass.old result pass.new }
    ensures told { TellsRaise latch.0 pass.old result pass.new }
{
    let space = table.latches().space();
    let word = space.give_s(pass, latch);
    if !is_drained(word) {
        return Raise::Nothing;
    }
    Raise::ExGeneration {
        now: space.raise_ex_gen(pass, latch),
    }
}

/// Gives one SX back.
pub(crate) fn unlock_sx(table: &Table, pass: &mut Pass, latch: u32) -> Released
    requires own { IsOf table.now pass.old }
    ensures own { IsOf table.now pass.new }
    ensures released { HasReleasedSx latch table.now pass.old result pass.new }
{
    let count = pass.counts(Latch(latch)).sx;
    match may_release(table, pass, latch, count) {
        Err(status) => told_raise(Err(status)),
        Ok(()) => told_raise(Ok(give_sx(table, pass, Latch(latch)))),
    }
}

// Gives one SX back, and tells what was raised.
fn give_sx(table: &Table, pass: &mut Pass, latch: Latch) -> Raise
    requires free { IsInPhase table.now latch.0 Free pass.old }
    requires holds { 0 < sx_grants latch.0 pass.old.view.session }
    ensures own { IsOf table.now pass.new }
    ensures released { IsReleased (sx_steps latch.0 pass.old.view.session) latch.0
        (given_back ModeSx latch.0 pass.old.view.session) pass.old pass.new }
    ensures raised { IsSxRaise latch.0 pass.old result pass.new }
    ensures told { TellsRaise latch.0 pass.old result pass.new }
{
    let space = table.latches().space();
    let counts = pass.counts(latch);
    if counts.sx > 1 {
        space.give_sx_again(pass, latch);
        return Raise::Nothing;
    }
    if counts.x > 0 {
        space.give_sx_under_x(pass, latch);
        return Raise::Nothing;
    }
    space.give_sx(pass, latch);
    pay(table, pass, latch)
}

/// Gives one X back.
pub(crate) fn unlock_x(table: &Table, pass: &mut Pass, latch: u32) -> Released
    requires own { IsOf table.now pass.old }
    ensures own { IsOf table.now pass.new }
    ensures released { HasReleasedX latch table.now pass.old result pass.new }
{
    let count = pass.counts(Latch(latch)).x;
    match may_release(table, pass, latch, count) {
        Err(status) => told_raise(Err(status)),
        Ok(()) => told_raise(Ok(give_x(table, pass, Latch(latch)))),
    }
}

// Gives one X back, and tells what was raised.
fn give_x(table: &Table, pass: &mut Pass, latch: Latch) -> Raise
    requires free { IsInPhase table.now latch.0 Free pass.old }
    requires holds { 0 < x_grants latch.0 pass.old.view.session }
    ensures own { IsOf table.now pass.new }
    ensures released { IsReleased 1 latch.0 (given_back ModeX latch.0 pass.old.view.session)
        pass.old pass.new }
    ensures raised { IsXRaise latch.0 pass.old result pass.new }
    ensures told { TellsRaise latch.0 pass.old result pass.new }
{
    let space = table.latches().space();
    if pass.counts(latch).x > 1 {
        space.give_x_again(pass, latch);
        return Raise::Nothing;
    }
    space.give_x(pass, latch);
    pay(table, pass, latch)
}

// What a last release of SX or X owes: a look at the waiters flag, and where it is set its clearing and the raise of the
// generation.
fn pay(table: &Table, pass: &mut Pass, latch: Latch) -> Raise
    requires owes { IsInPhase table.now latch.0 (OwesLook latch.0) pass.old }
    ensures own { IsOf table.now pass.new }
    ensures rest { IsPaidOff latch.0 pass.old pass.new }
    ensures paid { IsPaid latch.0 pass.old result pass.new }
    ensures told { TellsRaise latch.0 pass.old result pass.new }
{
    if !look(table, pass, latch) {
        return Raise::Nothing;
    }
    if !clear(table, pass, latch) {
        return Raise::Nothing;
    }
    let space = table.latches().space();
    Raise::Generation {
        now: space.raise_gen(pass, latch),
    }
}

// The look at the waiters flag: whether it is set.
fn look(table: &Table, pass: &mut Pass, latch: Latch) -> bool
    requires owes { IsInPhase table.now latch.0 (OwesLook latch.0) pass.old }
    ensures looked { IsTurnBy (Look latch.0) result pass.old pass.new }
    ensures same { pass.new ≡ with_view pass.old
        (phased (if result then OwesClear latch.0 else Free) pass.old.view) }
{
    let space = table.latches().space();
    space.load_waiters(pass, latch) > 0
}

// The clearing of the waiters flag: whether it was set.
fn clear(table: &Table, pass: &mut Pass, latch: Latch) -> bool
    requires owes { IsInPhase table.now latch.0 (OwesClear latch.0) pass.old }
    ensures cleared { IsTurnBy (Clear latch.0) result pass.old pass.new }
    ensures same { pass.new ≡ with_view pass.old
        (phased (if result then OwesRaise latch.0 else Free) pass.old.view) }
{
    let space = table.latches().space();
    space.swap_waiters(pass, latch) > 0
}
