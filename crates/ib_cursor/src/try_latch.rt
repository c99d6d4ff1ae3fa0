//! A latch is tried in any mode, and then the log's end is looked at.

ghost use Rattle.std.specs.Prelude.{◌≡◌, ◌<◌, ◌+◌, true, IfErr, OnErr, OnOk};
ghost use Rattle.ib_levels.specs.declared.level.Level.TheVariants.{TreeNode};
ghost use Rattle.ib_core.specs.Holders.{CanWish};
ghost use Rattle.ib_rule.specs.Conditions.{MayGrow};
ghost use Rattle.ib_rule.specs.Pass.{with_view};
ghost use Rattle.ib_rule.specs.Takes.{MayTake};
ghost use Rattle.ib_rule.specs.Under.{under_lawful};
ghost use Rattle.ib_latch.specs.Refusals.{IsOneTry};
ghost use Rattle.ib_latch.specs.Tries.{IsUnchanged, looks_of};
ghost use Rattle.ib_mtr.specs.Mtr.{IsMtr, IsStillMtr, with_memo};
ghost use Rattle.ib_cursor.specs.Going.{HasLatched};
ghost use Rattle.ib_cursor.specs.Grants.{HasTaken, page_grant};
ghost use Rattle.ib_cursor.specs.Refusals.{AreFewLooks, IsVainTry};
ghost use Rattle.ib_cursor.specs.Shapes.{KeepsClaim, is_claimed};

use crate::fault::NowaitFault;
use crate::latch_page::look;
use ib_latch::{Sleep, TryFault};
use ib_levels::{Latch, Level, Mode};
use ib_logrec::Law;
use ib_mtr::Mtr;

// One try for a first grant of the mode.
#[inline(always)]
fn try_once<L: Law, S: Sleep>(
    mtr: &mut Mtr<'_, L, S>,
    latch: Latch,
    mode: Mode,
    level: Level,
) -> Result<(), TryFault>
    requires mtr { IsMtr mtr.old.latches.now mtr.old.pass.now }
    requires may { MayTake mtr.old.latches.now latch.0 level mtr.old.pass.now }
    ensures still { IsStillMtr mtr.old mtr.new }
    ensures taken { OnOk result (HasTaken (record { latch = latch.0; mode = mode; level = level })
        mtr.old.pass.now mtr.new.pass.now) }
    ensures not_granted { OnErr result (mtr.new.pass.now
        ≡ with_view mtr.old.pass.now mtr.new.pass.now.view) }
    ensures tried { IsOneTry mode latch.0 level mtr.old.pass.now result
        (with_memo mtr.old.pass.now.memo mtr.new.pass.now) }
    ensures unchanged { IfErr result (λ fault. IsUnchanged (looks_of fault)
        mtr.old.pass.now.view mtr.new.pass.now.view) }
{
    match mode {
        Mode::S => mtr.try_s_latch(latch, level),
        Mode::Sx => mtr.try_sx_latch(latch, level),
        Mode::X => mtr.try_x_latch(latch, level),
    }
}

/// A step of a cursor that does not wait: tries a latch of which the session holds nothing
/// (`rw_lock_s_lock_nowait`, `rw_lock_sx_lock_nowait`, `rw_lock_x_lock_func_nowait`). Where it is refused, the
/// log's end is looked at, and nothing else is changed.
///
/// ```
/// match try_take(&mut mtr, Latch::page(page), Mode::X, Level::TreeNode) {
///     Ok(()) => read(&mut mtr, page),
///     Err(fault) => return Err(fault),
/// }
/// ```
pub fn try_take<L: Law, S: Sleep>(
    mtr: &mut Mtr<'_, L, S>,
    latch: Latch,
    mode: Mode,
    level: Level,
) -> Result<(), NowaitFault>
    requires mtr { IsMtr mtr.old.latches.now mtr.old.pass.now }
    requires may { MayTake mtr.old.latches.now latch.0 level mtr.old.pass.now }
    ensures still { IsStillMtr mtr.old mtr.new }
    ensures taken { OnOk result (HasTaken (record { latch = latch.0; mode = mode; level = level })
        mtr.old.pass.now mtr.new.pass.now) }
    ensures few { OnOk result (AreFewLooks 0 mtr.old.pass.now.view mtr.new.pass.now.view) }
    ensures vain { IfErr result (λ fault. under_lawful L.Law mtr.old.latches.now IsVainTry mode
        latch.0 fault mtr.old.pass.now mtr.new.pass.now) }
{
    match try_once(mtr, latch, mode, level) {
        Ok(()) => Ok(()),
        Err(fault) => {
            look(mtr);
            Err(NowaitFault::of(latch, fault))
        }
    }
}

// Tries the latch of a page of which the session holds nothing, and looks at the log's end either way: the latch is
// watched from then on.
pub(crate) fn try_page<L: Law, S: Sleep>(
    mtr: &mut Mtr<'_, L, S>,
    page: u32,
    mode: Mode,
) -> Result<(), NowaitFault>
    requires mtr { IsMtr mtr.old.latches.now mtr.old.pass.now }
    requires page { page < mtr.old.latches.now.sizes.pages }
    requires grows { MayGrow mtr.old.pass.now.view }
    requires may { CanWish (page + 2) TreeNode mtr.old.pass.now.view.session }
    ensures still { IsStillMtr mtr.old mtr.new }
    ensures latched { OnOk result (under_lawful L.Law mtr.old.latches.now HasLatched
        (page_grant page mode) mtr.old.pass.now mtr.new.pass.now) }
    ensures keeps { OnOk result (is_claimed mtr.old.pass.now.view.memory.since ≡ true
        → KeepsClaim mtr.old.pass.now mtr.new.pass.now) }
    ensures few { OnOk result (AreFewLooks 0 mtr.old.pass.now.view mtr.new.pass.now.view) }
    ensures vain { IfErr result (λ fault. under_lawful L.Law mtr.old.latches.now IsVainTry mode
        (page + 2) fault mtr.old.pass.now mtr.new.pass.now) }
{
    // For the proof: a space has a number of pages of which the laws speak.
    let _ = mtr.geometry().pages();
    try_take(mtr, Latch::page(page), mode, Level::TreeNode)?;
    look(mtr);
    Ok(())
}
