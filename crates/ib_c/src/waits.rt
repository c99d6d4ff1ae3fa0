//! What a session does that sleeps by means of its own: it records a generation, tries once more, and looks whether the
//! generation stands.

ghost use Rattle.std.specs.Prelude.{◌≡◌, ◌<◌, IfErr, IfOk};
ghost use Rattle.ib_levels.specs.Level.{number_of};
ghost use Rattle.ib_layout.specs.Places.{latches_of};
ghost use Rattle.ib_core.specs.Holders.{CanWish};
ghost use Rattle.ib_rule.specs.Conditions.{MayGrow};
ghost use Rattle.ib_rule.specs.Pass.{IsOf};
ghost use Rattle.ib_c.specs.Wishes.{mode_number};
ghost use Rattle.ib_c.specs.Tries.{IsNextOn, IsRefusedIn};
ghost use Rattle.ib_c.specs.declared.waits.Sleeper.TheVariants.{First, Next};
ghost use Rattle.ib_c.specs.Waits.{HasArmed, HasArmedNext, HasLooked, HasRechecked, HasStoodDown, HasVerified, IsExLoad, IsFlaggedOn, IsNextArmedOn, IsRefusedArm, IsRefusedRecheck, IsSleepLook, IsSleeperAs, IsSleeperOn, IsWaiterOn, IsWordLoad, sleep_status, told_generation, told_verified};

use crate::status::Status;
use crate::table::Table;
use crate::tries::{Tried, told_reserve};
use crate::wishes::{has_latch, mode_of};
use ib_core::Phase;
use ib_levels::{Latch, Level, Mode};
use ib_rule::Pass;
use ib_word::LockWord;

/// A generation of a latch, and the status of the call that told it.
#[repr(C)]
#[derive(Clone, Copy, PartialEq, Eq, Debug)]
pub struct Generation {
    pub status: u32,
    pub generation: u64,
}

/// A generation in C's words.
pub(crate) fn told_generation(answer: Result<(Status, u64), Status>) -> Generation
    ensures { result ≡ told_generation answer }
{
    match answer {
        Err(status) => Generation {
            status: status.number(),
            generation: 0,
        },
        Ok((status, generation)) => Generation {
            status: status.number(),
            generation,
        },
    }
}

/// Records the generation and the wish, and sets the waiters flag.
pub(crate) fn arm(table: &Table, pass: &mut Pass, latch: u32, mode: u32, level: u32) -> Generation
    requires own { IsOf table.now pass.old }
    ensures own { IsOf table.now pass.new }
    ensures armed { HasArmed latch mode level table.now pass.old result pass.new }
{
    match may_arm(table, pass, latch, mode, level) {
        Err(status) => told_generation(Err(status)),
        Ok((mode, level)) => {
            let generation = table.latches().arm(pass, Latch(latch), mode, level);
            told_generation(Ok((Status::Done, generation)))
        }
    }
}

// The wish of a session that may wait for the latch, or why the call is refused.
fn may_arm(
    table: &Table,
    pass: &Pass,
    latch: u32,
    mode: u32,
    level: u32,
) -> Result<(Mode, Level), Status>
    ensures ok { IfOk result (λ w. (mode_number w.0 ≡ mode) × (number_of w.1 ≡ level)
        × (latch < latches_of table.now.sizes) × CanWish latch w.1 pass.now.view.session) }
    ensures refused { IfErr result (IsRefusedArm latch mode level table.now pass.now) }
{
    if !has_latch(table, latch) {
        return Err(Status::BadLatch);
    }
    let Some(mode) = mode_of(mode) else {
        return Err(Status::BadMode);
    };
    let Some(level) = Level::from_number(level) else {
        return Err(Status::BadLevel);
    };
    if !pass.can_wish(Latch(latch), level) {
        return Err(Status::NotAllowed);
    }
    Ok((mode, level))
}

/// Tries once more for what the session that set the flag wishes for.
pub(crate) fn recheck(table: &Table, pass: &mut Pass, latch: u32) -> Tried
    requires own { IsOf table.now pass.old }
    ensures own { IsOf table.now pass.new }
    ensures rechecked { HasRechecked latch table.now pass.old result pass.new }
{
    match may_recheck(table, pass, latch) {
        Err(status) => Tried::only(status),
        Ok(()) => told_reserve(table.latches().recheck(pass, Latch(latch))),
    }
}

// Whether the session has set the flag of the latch and may take a grant, or why the call is refused.
fn may_recheck(table: &Table, pass: &Pass, latch: u32) -> Result<(), Status>
    ensures ok { IfOk result (λ x. (latch < latches_of table.now.sizes)
        × IsFlaggedOn latch pass.now.view.session.phase × MayGrow pass.now.view) }
    ensures refused { IfErr result (IsRefusedRecheck latch table.now pass.now) }
{
    if !has_latch(table, latch) {
        return Err(Status::BadLatch);
    }
    match pass.phase() {
        Phase::Flagged { latch: at, .. } if at == latch => {
            if pass.may_grow() {
                Ok(())
            } else {
                Err(Status::TooManyGrants)
            }
        }
        _ => Err(Status::WrongPhase),
    }
}

/// The session gives up what it set the flag for.
pub(crate) fn stand_down(table: &Table, pass: &mut Pass, latch: u32) -> u32
    requires own { IsOf table.now pass.old }
    ensures own { IsOf table.now pass.new }
    ensures stood { HasStoodDown latch table.now pass.old result pass.new }
{
    match may_stand_down(table, pass, latch) {
        Err(status) => status.number(),
        Ok(()) => {
            table.latches().stand_down(pass);
            Status::Done.number()
        }
    }
}

// Whether the session waits for the latch, and does not sleep, or why the call is refused.
fn may_stand_down(table: &Table, pass: &Pass, latch: u32) -> Result<(), Status>
    ensures ok { IfOk result (λ x. (latch < latches_of table.now.sizes)
        × IsWaiterOn latch pass.now.view.session.phase) }
    ensures refused { IfErr result (IsRefusedIn IsWaiterOn latch table.now pass.now) }
{
    if !has_latch(table, latch) {
        return Err(Status::BadLatch);
    }
    match pass.phase() {
        Phase::Flagged { latch: at, .. } | Phase::Checked { latch: at, .. } if at == latch => Ok(
            (),
        ),
        _ => Err(Status::WrongPhase),
    }
}

/// The next writer records the ex generation.
pub(crate) fn arm_next(table: &Table, pass: &mut Pass, latch: u32) -> Generation
    requires own { IsOf table.now pass.old }
    ensures own { IsOf table.now pass.new }
    ensures armed { HasArmedNext latch table.now pass.old result pass.new }
{
    match may_arm_next(table, pass, latch) {
        Err(status) => told_generation(Err(status)),
        Ok(()) => {
            let generation = load_ex_gen(table, pass, Latch(latch));
            told_generation(Ok((Status::Done, generation)))
        }
    }
}

// Whether the session is the next writer of the latch, or why the call is refused.
fn may_arm_next(table: &Table, pass: &Pass, latch: u32) -> Result<(), Status>
    ensures ok { IfOk result (λ x. (latch < latches_of table.now.sizes)
        × IsNextOn latch pass.now.view.session.phase) }
    ensures refused { IfErr result (IsRefusedIn IsNextOn latch table.now pass.now) }
{
    if !has_latch(table, latch) {
        return Err(Status::BadLatch);
    }
    match pass.phase() {
        Phase::Next { latch: at, .. } if at == latch => Ok(()),
        _ => Err(Status::WrongPhase),
    }
}

// Loads the ex generation, for a next writer.
fn load_ex_gen(table: &Table, pass: &mut Pass, latch: Latch) -> u64
    requires own { IsOf table.now pass.old }
    requires latch { latch.0 < latches_of table.now.sizes }
    requires next { IsNextOn latch.0 pass.old.view.session.phase }
    ensures own { IsOf table.now pass.new }
    ensures loaded { IsExLoad latch.0 pass.old result pass.new }
{
    let space = table.latches().space();
    space.load_ex_gen(pass, latch)
}

/// A next writer that has recorded the ex generation looks whether it owns X.
pub(crate) fn verify(table: &Table, pass: &mut Pass, latch: u32) -> Tried
    requires own { IsOf table.now pass.old }
    ensures own { IsOf table.now pass.new }
    ensures verified { HasVerified latch table.now pass.old result pass.new }
{
    match may_verify(table, pass, latch) {
        Err(status) => Tried::only(status),
        Ok(()) => {
            let word = load_word(table, pass, Latch(latch));
            told_verified(pass, word)
        }
    }
}

// Whether the session is a next writer that has recorded the ex generation, or why the call is refused.
fn may_verify(table: &Table, pass: &Pass, latch: u32) -> Result<(), Status>
    ensures ok { IfOk result (λ x. (latch < latches_of table.now.sizes)
        × IsNextArmedOn latch pass.now.view.session.phase) }
    ensures refused { IfErr result (IsRefusedIn IsNextArmedOn latch table.now pass.now) }
{
    if !has_latch(table, latch) {
        return Err(Status::BadLatch);
    }
    match pass.phase() {
        Phase::NextArmed { latch: at, .. } if at == latch => Ok(()),
        _ => Err(Status::WrongPhase),
    }
}

// Loads the lock word, for a next writer that has recorded the ex generation.
fn load_word(table: &Table, pass: &mut Pass, latch: Latch) -> LockWord
    requires own { IsOf table.now pass.old }
    requires latch { latch.0 < latches_of table.now.sizes }
    ensures own { IsOf table.now pass.new }
    ensures loaded { IsWordLoad latch.0 pass.old result pass.new }
{
    let space = table.latches().space();
    space.load_word(pass, latch)
}

// What a look of a next writer came to: it owns X where it is in the middle of nothing then.
fn told_verified(pass: &Pass, word: LockWord) -> Tried
    ensures { result ≡ told_verified pass.now.view.session.phase word }
{
    match pass.phase() {
        Phase::Free => Tried::only(Status::Done),
        _ => Tried {
            status: Status::NotReady.number(),
            expected: 0,
            found: word.0,
        },
    }
}

/// The sleeper's look: whether the generation that it recorded stands.
pub(crate) fn look(table: &Table, pass: &mut Pass, latch: u32) -> Generation
    requires own { IsOf table.now pass.old }
    ensures own { IsOf table.now pass.new }
    ensures looked { HasLooked latch table.now pass.old result pass.new }
{
    match may_look(table, pass, latch) {
        Err(status) => told_generation(Err(status)),
        Ok(Sleeper::First) => {
            let generation = look_first(table, pass, Latch(latch));
            told_generation(Ok((sleep_status(pass), generation)))
        }
        Ok(Sleeper::Next) => {
            let generation = look_next(table, pass, Latch(latch));
            told_generation(Ok((sleep_status(pass), generation)))
        }
    }
}

// Who sleeps, or is about to.
#[derive(Clone, Copy)]
enum Sleeper {
    // For a first grant, on the generation.
    First,
    // A next writer, on the ex generation.
    Next,
}

// Whether the session has checked or sleeps, on which generation, or why the call is refused.
fn may_look(table: &Table, pass: &Pass, latch: u32) -> Result<Sleeper, Status>
    ensures ok { IfOk result (λ sleeper. (latch < latches_of table.now.sizes)
        × IsSleeperAs sleeper latch pass.now.view.session.phase) }
    ensures refused { IfErr result (IsRefusedIn IsSleeperOn latch table.now pass.now) }
{
    if !has_latch(table, latch) {
        return Err(Status::BadLatch);
    }
    match pass.phase() {
        Phase::Checked { latch: at, .. } | Phase::Asleep { latch: at, .. } if at == latch => {
            Ok(Sleeper::First)
        }
        Phase::NextChecked { latch: at, .. } | Phase::NextAsleep { latch: at, .. } if at == latch =>
            { Ok(Sleeper::Next) }
        _ => Err(Status::WrongPhase),
    }
}

// Looks at the generation.
fn look_first(table: &Table, pass: &mut Pass, latch: Latch) -> u64
    requires own { IsOf table.now pass.old }
    requires latch { latch.0 < latches_of table.now.sizes }
    requires sleeper { IsSleeperAs First latch.0 pass.old.view.session.phase }
    ensures own { IsOf table.now pass.new }
    ensures slept { IsSleepLook pass.old result pass.new }
{
    let space = table.latches().space();
    space.load_gen(pass, latch, None)
}

// Looks at the ex generation.
fn look_next(table: &Table, pass: &mut Pass, latch: Latch) -> u64
    requires own { IsOf table.now pass.old }
    requires latch { latch.0 < latches_of table.now.sizes }
    requires sleeper { IsSleeperAs Next latch.0 pass.old.view.session.phase }
    ensures own { IsOf table.now pass.new }
    ensures slept { IsSleepLook pass.old result pass.new }
{
    let space = table.latches().space();
    space.load_ex_gen(pass, latch)
}

// Whether the session sleeps on.
fn sleep_status(pass: &Pass) -> Status
    ensures { result ≡ sleep_status pass.now.view.session.phase }
{
    match pass.phase() {
        Phase::Asleep { .. } | Phase::NextAsleep { .. } => Status::Asleep,
        _ => Status::Done,
    }
}
