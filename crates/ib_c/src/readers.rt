//! What a session tells of itself and of a lock word, so that a caller who proves nothing can keep the conditions of
//! calls. Nothing is changed by any of them but the looks by `word`.

ghost use Rattle.std.specs.Prelude.{◌≡◌, ◌<◌, IfErr, IfOk};
ghost use Rattle.ib_layout.specs.Places.{latches_of};
ghost use Rattle.ib_core.specs.declared.phase.Phase.TheVariants.{Free};
ghost use Rattle.ib_rule.specs.Conditions.{held_now};
ghost use Rattle.ib_rule.specs.Pass.{IsOf};
ghost use Rattle.ib_c.specs.declared.status.Status.TheVariants.{Done};
ghost use Rattle.ib_c.specs.Wishes.{IsGrantedAt, IsRefusedFor};
ghost use Rattle.ib_c.specs.Readers.{HasAskedTake, HasCounted, HasLookedAt, IsCount, IsRefusedLook, IsWishAnswer, allowance_of, phase_latch, phase_number, told_counts, told_held, told_phase, told_word, wish_status};

use crate::status::Status;
use crate::table::Table;
use crate::wishes::{has_latch, is_free, may_claim, may_take, mode_of};
use ib_core::Phase;
use ib_levels::{Latch, Level, Mode};
use ib_rule::{Grants, Pass};
use ib_word::LockWord;

/// A lock word, and the status of the call that told it.
#[repr(C)]
#[derive(Clone, Copy, PartialEq, Eq, Debug)]
pub struct Looked {
    pub status: u32,
    pub word: i32,
}

/// How many grants a session holds now, on all latches.
#[repr(C)]
#[derive(Clone, Copy, PartialEq, Eq, Debug)]
pub struct Held {
    pub status: u32,
    pub grants: u64,
}

/// How many grants of each mode a session holds on a latch.
#[repr(C)]
#[derive(Clone, Copy, PartialEq, Eq, Debug)]
pub struct Counted {
    pub status: u32,
    pub s: u64,
    pub sx: u64,
    pub x: u64,
}

/// The phase of a session, and the latch that it is about, 0 where it is about none.
#[repr(C)]
#[derive(Clone, Copy, PartialEq, Eq, Debug)]
pub struct InPhase {
    pub status: u32,
    pub phase: u32,
    pub latch: u32,
}

/// A lock word in C's words.
pub(crate) fn told_word(answer: Result<LockWord, Status>) -> Looked
    ensures { result ≡ told_word answer }
{
    match answer {
        Err(status) => Looked {
            status: status.number(),
            word: 0,
        },
        Ok(word) => Looked {
            status: Status::Done.number(),
            word: word.0,
        },
    }
}

/// The lock word of a latch, by one look.
pub(crate) fn word(table: &Table, pass: &mut Pass, latch: u32) -> Looked
    requires own { IsOf table.now pass.old }
    ensures own { IsOf table.now pass.new }
    ensures looked { HasLookedAt latch table.now pass.old result pass.new }
{
    match may_look_at(table, pass, latch) {
        Err(status) => told_word(Err(status)),
        Ok(()) => told_word(Ok(table.latches().word_of(pass, Latch(latch)))),
    }
}

// Whether the session may look at the lock word, or why not.
fn may_look_at(table: &Table, pass: &Pass, latch: u32) -> Result<(), Status>
    ensures ok { IfOk result (λ x. (latch < latches_of table.now.sizes)
        × (pass.now.view.session.phase ≡ Free)) }
    ensures refused { IfErr result (IsRefusedLook latch table.now pass.now) }
{
    if !has_latch(table, latch) {
        return Err(Status::BadLatch);
    }
    if !is_free(pass) {
        return Err(Status::WrongPhase);
    }
    Ok(())
}

/// A number of grants held in C's words.
pub(crate) fn told_held(status: Status, grants: u64) -> Held
    ensures { result ≡ told_held status grants }
{
    Held {
        status: status.number(),
        grants,
    }
}

/// How many grants the session holds now, on all latches.
pub(crate) fn grants_held(pass: &Pass) -> Held
    ensures { result ≡ told_held Done (held_now pass.now.view.session) }
{
    told_held(Status::Done, pass.grants_held())
}

/// Grants by mode in C's words.
pub(crate) fn told_counts(answer: Result<Grants, Status>) -> Counted
    ensures { result ≡ told_counts answer }
{
    match answer {
        Err(status) => Counted {
            status: status.number(),
            s: 0,
            sx: 0,
            x: 0,
        },
        Ok(Grants { s, sx, x }) => Counted {
            status: Status::Done.number(),
            s,
            sx,
            x,
        },
    }
}

/// How many grants of each mode the session holds on the latch.
pub(crate) fn counts(table: &Table, pass: &Pass, latch: u32) -> Counted
    ensures { HasCounted latch table.now pass.now result pass.now }
{
    told_counts(count(table, pass, latch))
}

// The grants of each mode on the latch, or why not.
fn count(table: &Table, pass: &Pass, latch: u32) -> Result<Grants, Status>
    ensures { IsCount latch table.now pass.now result }
{
    if !has_latch(table, latch) {
        return Err(Status::BadLatch);
    }
    Ok(pass.counts(Latch(latch)))
}

/// A phase in C's words.
pub(crate) fn told_phase(status: Status, phase: Phase) -> InPhase
    ensures { result ≡ told_phase status phase }
{
    InPhase {
        status: status.number(),
        phase: phase_number(phase),
        latch: phase_latch(phase),
    }
}

/// The phase of the session.
pub(crate) fn phase(pass: &Pass) -> InPhase
    ensures { result ≡ told_phase Done pass.now.view.session.phase }
{
    told_phase(Status::Done, pass.phase())
}

// The number of a phase in C.
fn phase_number(phase: Phase) -> u32
    ensures { result ≡ phase_number phase }
{
    match phase {
        Phase::Free => 0,
        Phase::Armed { .. } => 1,
        Phase::Flagged { .. } => 2,
        Phase::Checked { .. } => 3,
        Phase::Asleep { .. } => 4,
        Phase::Next { .. } => 5,
        Phase::NextArmed { .. } => 6,
        Phase::NextChecked { .. } => 7,
        Phase::NextAsleep { .. } => 8,
        Phase::OwesLook { .. } => 9,
        Phase::OwesClear { .. } => 10,
        Phase::OwesRaise { .. } => 11,
        Phase::OwesRaiseEx { .. } => 12,
    }
}

// The latch that a phase is about.
fn phase_latch(phase: Phase) -> u32
    ensures { result ≡ phase_latch phase }
{
    match phase {
        Phase::Free => 0,
        Phase::Armed { latch, .. }
        | Phase::Flagged { latch, .. }
        | Phase::Checked { latch, .. }
        | Phase::Asleep { latch, .. }
        | Phase::Next { latch, .. }
        | Phase::NextArmed { latch, .. }
        | Phase::NextChecked { latch, .. }
        | Phase::NextAsleep { latch, .. }
        | Phase::OwesLook { latch }
        | Phase::OwesClear { latch }
        | Phase::OwesRaise { latch }
        | Phase::OwesRaiseEx { latch } => latch,
    }
}

/// Whether a grant of the mode may be wished for, or why not.
pub(crate) fn asked_take(table: &Table, pass: &Pass, latch: u32, mode: u32, level: u32) -> u32
    ensures { HasAskedTake latch mode level table.now pass.now result pass.now }
{
    wish_status(may_wish(table, pass, latch, mode, level))
}

// The mode of a wish that may be made, or why not.
fn may_wish(table: &Table, pass: &Pass, latch: u32, mode: u32, level: u32) -> Result<Mode, Status>
    ensures { IsWishAnswer latch mode level table.now pass.now result }
{
    let Some(mode) = mode_of(mode) else {
        return Err(Status::BadMode);
    };
    match wish_level(table, pass, latch, mode, level) {
        Ok(_) => Ok(mode),
        Err(status) => Err(status),
    }
}

// The level of a wish for the mode that may be made, or why not.
fn wish_level(
    table: &Table,
    pass: &Pass,
    latch: u32,
    mode: Mode,
    level: u32,
) -> Result<Level, Status>
    ensures granted { IfOk result (IsGrantedAt (allowance_of mode) latch level table.now pass.now) }
    ensures refused { IfErr result (IsRefusedFor (allowance_of mode) latch level table.now pass.now) }
{
    match mode {
        Mode::S => may_take(table, pass, latch, level),
        Mode::Sx | Mode::X => may_claim(table, pass, latch, level),
    }
}

// The status of such an answer.
fn wish_status(answer: Result<Mode, Status>) -> u32
    ensures { result ≡ wish_status answer }
{
    match answer {
        Ok(_) => Status::Done.number(),
        Err(status) => status.number(),
    }
}
