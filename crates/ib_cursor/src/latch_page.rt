//! A latch is taken, and then the log's end is looked at.

ghost use Rattle.std.specs.Prelude.{◌≡◌, ◌<◌, ◌+◌, ◌∷◌, [], true, false, None, length};
ghost use Rattle.ib_map.specs.Space.{has_pages};
ghost use Rattle.ib_levels.specs.declared.level.Level.TheVariants.{TreeNode};
ghost use Rattle.ib_core.specs.Holders.{CanWish};
ghost use Rattle.ib_core.specs.Sessions.{holdings};
ghost use Rattle.ib_page.specs.declared.work.TheConstants.{MOST_WORK_PAGES};
ghost use Rattle.ib_page.specs.Work.{changed_of};
ghost use Rattle.ib_logrec.specs.Log.{by_place};
ghost use Rattle.ib_rule.specs.Conditions.{MayGrow};
ghost use Rattle.ib_rule.specs.Takes.{MayTake};
ghost use Rattle.ib_rule.specs.Under.{under_lawful};
ghost use Rattle.ib_rule.specs.Views.{is_watched};
ghost use Rattle.ib_mtr.specs.Mtr.{IsMtr, IsStillMtr};
ghost use Rattle.ib_cursor.specs.Claims.{claim_grant};
ghost use Rattle.ib_cursor.specs.Descent.{HasPage};
ghost use Rattle.ib_cursor.specs.Going.{HasLatched};
ghost use Rattle.ib_cursor.specs.Grants.{HasTaken, hold_of, page_grant};
ghost use Rattle.ib_cursor.specs.Shapes.{HasLookedOn, KeepsClaim, is_claimed};

use ib_latch::{Parkers, Sleep};
use ib_levels::{Latch, Level, Mode};
use ib_logrec::Law;
use ib_mtr::Mtr;
use std::sync::Wait;

/// A step of a cursor: takes a latch of which the session holds nothing, and waits until it is granted
/// (`mtr_s_lock`, `mtr_sx_lock`, `mtr_x_lock`). The grant is on top of the memo.
pub fn take<L: Law, R: Wait>(
    rt: &R,
    mtr: &mut Mtr<'_, L, Parkers>,
    latch: Latch,
    mode: Mode,
    level: Level,
)
    requires mtr { IsMtr mtr.old.latches.now mtr.old.pass.now }
    requires may { MayTake mtr.old.latches.now latch.0 level mtr.old.pass.now }
    ensures still { IsStillMtr mtr.old mtr.new }
    ensures taken { HasTaken (record { latch = latch.0; mode = mode; level = level })
        mtr.old.pass.now mtr.new.pass.now }
{
    match mode {
        Mode::S => mtr.s_latch(rt, latch, level),
        Mode::Sx => mtr.sx_latch(rt, latch, level),
        Mode::X => mtr.x_latch(rt, latch, level),
    }
}

// Looks at the log's end: while the index is claimed, no entry that is first seen is structural.
#[inline(always)]
pub(crate) fn look<L: Law, S: Sleep>(mtr: &mut Mtr<'_, L, S>)
    requires mtr { IsMtr mtr.old.latches.now mtr.old.pass.now }
    ensures still { IsStillMtr mtr.old mtr.new }
    ensures looked_on { under_lawful L.Law mtr.old.latches.now HasLookedOn mtr.old.pass.now
        mtr.new.pass.now }
    ensures started { is_watched 1 mtr.old.pass.now.view.memory.since ≡ false
        → mtr.old.pass.now.view.session.held ≡ hold_of claim_grant ∷ []
        → is_claimed mtr.new.pass.now.view.memory.since ≡ true }
    ensures memo { mtr.new.pass.now.memo ≡ mtr.old.pass.now.memo }
    ensures session { mtr.new.pass.now.view.session ≡ mtr.old.pass.now.view.session }
    ensures grants { mtr.new.pass.now.view.grants ≡ mtr.old.pass.now.view.grants }
    ensures work { mtr.new.pass.now.work ≡ mtr.old.pass.now.work }
    ensures looks { mtr.new.pass.now.view.looks ≡ mtr.old.pass.now.view.looks }
{
    // For the proof: the session's entries are those of its number.
    let _ = mtr.pass().number();
    let _ = mtr.log_end();
}

// Takes the latch of a page of which the session holds nothing, and looks at the log's end: the latch
// is watched from then on.
#[inline(always)]
pub(crate) fn latch_page<L: Law, R: Wait>(
    rt: &R,
    mtr: &mut Mtr<'_, L, Parkers>,
    page: u32,
    mode: Mode,
)
    requires mtr { IsMtr mtr.old.latches.now mtr.old.pass.now }
    requires page { page < mtr.old.latches.now.sizes.pages }
    requires grows { MayGrow mtr.old.pass.now.view }
    requires may { CanWish (page + 2) TreeNode mtr.old.pass.now.view.session }
    ensures still { IsStillMtr mtr.old mtr.new }
    ensures latched { under_lawful L.Law mtr.old.latches.now HasLatched (page_grant page mode)
        mtr.old.pass.now mtr.new.pass.now }
    ensures keeps { is_claimed mtr.old.pass.now.view.memory.since ≡ true
        → KeepsClaim mtr.old.pass.now mtr.new.pass.now }
    ensures space { has_pages mtr.old.latches.now.sizes.pages ≡ true }
{
    // For the proof: a space has a number of pages of which the laws speak.
    let _ = mtr.geometry().pages();
    take(rt, mtr, Latch::page(page), mode, Level::TreeNode);
    look(mtr);
}

/// A step of a cursor: loads a page of which the latch is held in some mode, and looks at the log's end
/// (`buf_page_get_gen`). The page stands in the work set, as it is after all entries seen, and each latch
/// that is held is watched from then on. While the index is claimed, no entry that is first seen is structural.
pub fn read<L: Law, S: Sleep>(mtr: &mut Mtr<'_, L, S>, page: u32)
    requires mtr { IsMtr mtr.old.latches.now mtr.old.pass.now }
    requires page { page < mtr.old.latches.now.sizes.pages }
    requires held { 0 < holdings (page + 2) mtr.old.pass.now.view.session }
    requires absent { changed_of page mtr.old.pass.now.work ≡ None }
    requires few { length mtr.old.pass.now.work < MOST_WORK_PAGES }
    ensures still { IsStillMtr mtr.old mtr.new }
    ensures looked_on { under_lawful L.Law mtr.old.latches.now HasLookedOn mtr.old.pass.now
        mtr.new.pass.now }
    ensures memo { mtr.new.pass.now.memo ≡ mtr.old.pass.now.memo }
    ensures session { mtr.new.pass.now.view.session ≡ mtr.old.pass.now.view.session }
    ensures grants { mtr.new.pass.now.view.grants ≡ mtr.old.pass.now.view.grants }
    ensures loaded { HasPage (by_place L.opening mtr.old.latches.now.sizes.pages) page
        mtr.old.pass.now mtr.new.pass.now }
    ensures looks { mtr.new.pass.now.view.looks ≡ mtr.old.pass.now.view.looks }
{
    // For the proof: the session's entries are those of its number.
    let _ = mtr.pass().number();
    mtr.load(page);
}
