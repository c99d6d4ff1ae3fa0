//! What a session does before it sleeps: it records the generation and sets the waiters flag, tries
//! once more, and gives up or goes to sleep (sync0arr, `sync_array_reserve_cell` and
//! `rw_lock_set_waiter_flag`).

ghost use Rattle.std.specs.Prelude.{◌≡◌, ℕ, ◌<◌, true};
ghost use Rattle.ib_levels.specs.declared.level.Level.{Level};
ghost use Rattle.ib_levels.specs.declared.level.Mode.{Mode};
ghost use Rattle.ib_layout.specs.Places.{latches_of};
ghost use Rattle.ib_core.specs.declared.phase.Phase.TheVariants.{Checked, Flagged, Free};
ghost use Rattle.ib_core.specs.Takings.{is_given_at};
ghost use Rattle.ib_core.specs.Holders.{CanWish};
ghost use Rattle.ib_rule.specs.Afterwards.{phased, with_wait};
ghost use Rattle.ib_rule.specs.Conditions.{MayGrow};
ghost use Rattle.ib_rule.specs.Pass.{IsOf, with_view};
ghost use Rattle.ib_rule.specs.Takes.{IsStillOf};
ghost use Rattle.ib_latch.specs.Waits.{IsRecheck, MayStandDown, latch_waited, reserved_by};

use crate::latches::Latches;
use crate::sleep::Sleep;
use crate::tries::{Reserve, TryFault, reserve_at};
use ib_core::{Phase, is_given_at};
use ib_levels::{Latch, Level, Mode};
use ib_logrec::Law;
use ib_rule::Pass;
use ib_word::LockWord;

impl<L: Law, S: Sleep> Latches<L, S> {
    /// Records the generation of a latch of which the session holds nothing, and what it wishes for
    /// there, and sets the waiters flag: two steps. It answers the generation. From then on no raise of it is
    /// missed: the session tries once more by `recheck`, or gives up by `stand_down`.
    ///
    /// ```
    /// let generation = table.arm(&mut pass, latch, Mode::S, Level::TreeNode);
    /// match table.recheck(&mut pass, latch) {
    ///     Ok(_) => table.unlock_s(&mut pass, latch),
    ///     Err(TryFault::Busy { .. }) => sleep_while_it_is(generation),
    ///     Err(TryFault::Raced { .. }) => table.stand_down(&mut pass),
    /// }
    /// ```
    pub fn arm(&self, pass: &mut Pass, latch: Latch, mode: Mode, level: Level) -> u64
        requires own { IsOf self.now pass.old }
        requires latch { latch.0 < latches_of self.now.sizes }
        requires may { CanWish latch.0 level pass.old.view.session }
        ensures { pass.new ≡ with_view pass.old (with_wait (with_wait
            (phased (Flagged latch.0 mode level result) pass.old.view))) }
    {
        let generation = self.space.load_gen(pass, latch, Some((mode, level)));
        self.space.set_waiters(pass, latch);
        generation
    }

    /// Tries once more for what a session that set the flag wishes for: a look, and one exchange
    /// where the word found grants it. `Busy` leaves the session checked, so that it may sleep;
    /// after `Raced`, where the exchange found another word, it may try again.
    pub fn recheck(&self, pass: &mut Pass, latch: Latch) -> Result<Reserve, TryFault>
        requires own { IsOf self.now pass.old }
        requires latch { latch.0 < latches_of self.now.sizes }
        requires flagged { (mode : Mode) × (level : Level) × (generation : ℕ)
            × (pass.old.view.session.phase ≡ Flagged latch.0 mode level generation) }
        requires grows { MayGrow pass.old.view }
        ensures still { IsStillOf self.now pass.old pass.new }
        ensures tried { (mode : Mode) (level : Level) (generation : ℕ)
            → pass.old.view.session.phase ≡ Flagged latch.0 mode level generation
            → IsRecheck mode latch.0 level generation pass.old result pass.new }
    {
        let Phase::Flagged { mode, level, .. } = pass.phase() else {
            unreachable!()
        };
        let word = self.space.load_word(pass, latch);
        if !is_given_at(mode, word) {
            return Err(TryFault::Busy { word });
        }
        match self.exchange(pass, mode, latch, level, word) {
            Err(found) => Err(TryFault::Raced {
                expected: word,
                found,
            }),
            Ok(()) => Ok(reserved(mode, word)),
        }
    }

    /// The session gives up what it set the flag for, by one step. It owes nothing: who finds the flag set clears
    /// it, and raises a generation that nobody waits for.
    pub fn stand_down(&self, pass: &mut Pass)
        requires own { IsOf self.now pass.old }
        requires waits { MayStandDown (latches_of self.now.sizes) pass.old.view.session.phase }
        ensures { pass.new ≡ with_view pass.old (with_wait (phased Free pass.old.view)) }
    {
        let latch = waited_for(pass.phase());
        self.space.load_waiters(pass, Latch(latch));
    }
}

// What a first grant of the mode at the word came to.
#[inline(always)]
pub(crate) fn reserved(mode: Mode, word: LockWord) -> Reserve
    requires { is_given_at mode word.0 ≡ true }
    ensures { result ≡ reserved_by mode word.0 }
{
    match mode {
        Mode::S | Mode::Sx => Reserve::Owned,
        Mode::X => reserve_at(word),
    }
}

// The latch for which a session that set the flag waits.
fn waited_for(phase: Phase) -> u32
    ensures { result ≡ latch_waited phase }
{
    match phase {
        Phase::Flagged { latch, .. } | Phase::Checked { latch, .. } => latch,
        _ => 0,
    }
}
