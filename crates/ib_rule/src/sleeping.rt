//! The steps of a session that waits, and those that wake others: on the waiters flag and the two
//! generations of a latch (sync0arr).

ghost use Rattle.std.specs.Prelude.{◌≡◌, ℕ, ◌-◌, ◌<◌, ◌≤◌, Option, Some, None};
ghost use Rattle.ib_levels.specs.declared.level.Level.{Level};
ghost use Rattle.ib_levels.specs.declared.level.Mode.{Mode};
ghost use Rattle.ib_layout.specs.Places.{latches_of};
ghost use Rattle.ib_core.specs.declared.event.Event.TheVariants.{Clear, Flag, Raise};
ghost use Rattle.ib_core.specs.declared.latch_word.LatchWord.TheVariants.{ExGeneration, Generation};
ghost use Rattle.ib_core.specs.declared.phase.Phase.TheVariants.{Free, OwesClear, OwesRaise, OwesRaiseEx};
ghost use Rattle.ib_rule.specs.Pass.{IsOf, with_view};
ghost use Rattle.ib_rule.specs.Conditions.{IsArmed, MayLoadExGen, MayLoadFlag, MayLoadGen, ex_gen_event, flag_event, gen_event};
ghost use Rattle.ib_rule.specs.Turns.{IsInPhase, IsTurn};
ghost use Rattle.ib_rule.specs.Afterwards.{cleared, ex_loaded, flag_loaded, flag_looks, flagged, gen_loaded, phased, with_wait};
ghost use Rattle.ib_rule.specs.Steps.{one_raise_more};
ghost use Rattle.ib_rule.specs.Views.{with_looks};

use crate::kind::WordOp;
use crate::pass::Pass;
use crate::space::Space;
use ib_core::{Event, LatchWord, Phase};
use ib_levels::{Latch, Level, Mode};
use ib_logrec::Law;

impl<L: Law> Space<L> {
    /// Loads the generation. With a wish it is `arm`: the session records the generation and what
    /// it waits for. Without one it is `sleep`: the session sleeps on where the generation is the
    /// one that it recorded, and is awake where it is not (sync0arr, `sync_array_wait_event`). It
    /// answers the word.
    pub fn load_gen(&self, pass: &mut Pass, latch: Latch, wish: Option<(Mode, Level)>) -> u64
        requires own { IsOf self.now pass.old }
        requires latch { latch.0 < latches_of self.now.sizes }
        requires may { MayLoadGen latch.0 wish pass.old.view.session
            pass.old.view.session.phase }
        ensures turn { IsTurn (gen_event latch.0 wish) result pass.old pass.new }
        ensures same { pass.new ≡ with_view pass.old (with_wait (phased
            (gen_loaded latch.0 wish result pass.old.view.session.phase) pass.old.view)) }
    {
        let event = gen_event(latch.0, wish);
        self.turn(pass, event, LatchWord::Generation, WordOp::Load)
            .0
    }

    /// Loads the ex generation. In the phase `Next` it is `exarm`: the next writer records it. Later
    /// it is `sleep`. It answers the word.
    pub fn load_ex_gen(&self, pass: &mut Pass, latch: Latch) -> u64
        requires own { IsOf self.now pass.old }
        requires latch { latch.0 < latches_of self.now.sizes }
        requires may { MayLoadExGen latch.0 pass.old.view.session.phase }
        ensures turn { IsTurn (ex_gen_event latch.0 pass.old.view.session.phase) result pass.old
            pass.new }
        ensures same { pass.new ≡ with_view pass.old (with_wait (phased
            (ex_loaded result pass.old.view.session.phase) pass.old.view)) }
    {
        let phase = pass.member.phase();
        let event = ex_gen_event(latch.0, phase);
        self.turn(pass, event, LatchWord::ExGeneration, WordOp::Load)
            .0
    }

    /// Sets the waiters flag, for a session that is armed.
    pub fn set_waiters(&self, pass: &mut Pass, latch: Latch)
        requires own { IsOf self.now pass.old }
        requires latch { latch.0 < latches_of self.now.sizes }
        requires armed { IsArmed latch.0 pass.old.view.session.phase }
        ensures turn { (found : ℕ) × (found ≤ 1) × IsTurn (Flag latch.0) found pass.old pass.new }
        ensures same { pass.new ≡ with_view pass.old (with_wait (phased
            (flagged pass.old.view.session.phase) pass.old.view)) }
    {
        let event = Event::Flag { latch: latch.0 };
        self.turn(pass, event, LatchWord::Waiters, WordOp::Swap(1));
    }

    /// Loads the waiters flag: the look that the last release of SX or X owes, or `quit`, where the
    /// session gives up what it waits for. It answers the word.
    #[inline(always)]
    pub fn load_waiters(&self, pass: &mut Pass, latch: Latch) -> u64
        requires own { IsOf self.now pass.old }
        requires latch { latch.0 < latches_of self.now.sizes }
        requires may { MayLoadFlag latch.0 pass.old.view.session.phase }
        ensures turn { IsTurn (flag_event latch.0 pass.old.view.session.phase) result pass.old
            pass.new }
        ensures same { pass.new ≡ with_view pass.old (with_looks
            (flag_looks pass.old.view.session.phase pass.old.view.looks)
            (phased (flag_loaded result pass.old.view.session.phase) pass.old.view)) }
        ensures flag { result ≤ 1 }
    {
        let phase = pass.member.phase();
        let event = flag_event(latch.0, phase);
        self.turn(pass, event, LatchWord::Waiters, WordOp::Load).0
    }

    /// Clears the waiters flag, where a look found it set. Who found it set still owes the raise. It
    /// answers the word before the step.
    pub fn swap_waiters(&self, pass: &mut Pass, latch: Latch) -> u64
        requires owes { IsInPhase self.now latch.0 (OwesClear latch.0) pass.old }
        ensures turn { IsTurn (Clear latch.0) result pass.old pass.new }
        ensures same { pass.new ≡ with_view pass.old (phased (cleared latch.0 result) pass.old.view) }
        ensures flag { result ≤ 1 }
    {
        let event = Event::Clear { latch: latch.0 };
        self.turn(pass, event, LatchWord::Waiters, WordOp::Swap(0))
            .0
    }

    /// Raises the generation: who sleeps on the one before finds another, once it is woken, which is
    /// not done here (`os_event_set`). It answers the word after the step.
    pub fn raise_gen(&self, pass: &mut Pass, latch: Latch) -> u64
        requires owes { IsInPhase self.now latch.0 (OwesRaise latch.0) pass.old }
        ensures turn { IsTurn (Raise latch.0) (result - 1) pass.old pass.new }
        ensures same { pass.new ≡ with_view pass.old (with_looks
            (one_raise_more latch.0 Generation result pass.old.view.looks)
            (phased Free pass.old.view)) }
        ensures raised { 0 < result }
    {
        let event = Event::Raise { latch: latch.0 };
        self.turn(pass, event, LatchWord::Generation, WordOp::Add(1))
            .0
            + 1
    }

    /// Raises the ex generation: the next writer that sleeps on the one before finds another, once it is
    /// woken, which is not done here. It answers the word after the step.
    pub fn raise_ex_gen(&self, pass: &mut Pass, latch: Latch) -> u64
        requires owes { IsInPhase self.now latch.0 (OwesRaiseEx latch.0) pass.old }
        ensures turn { IsTurn (Raise latch.0) (result - 1) pass.old pass.new }
        ensures same { pass.new ≡ with_view pass.old (with_looks
            (one_raise_more latch.0 ExGeneration result pass.old.view.looks)
            (phased Free pass.old.view)) }
        ensures raised { 0 < result }
    {
        let event = Event::Raise { latch: latch.0 };
        self.turn(pass, event, LatchWord::ExGeneration, WordOp::Add(1))
            .0
            + 1
    }
}

// The event of a load of the generation.
fn gen_event(latch: u32, wish: Option<(Mode, Level)>) -> Event
    ensures { result ≡ gen_event latch wish }
{
    match wish {
        None => Event::Sleep { latch },
        Some((mode, level)) => Event::Arm { latch, mode, level },
    }
}

// The event of a load of the ex generation.
fn ex_gen_event(latch: u32, phase: Phase) -> Event
    ensures { result ≡ ex_gen_event latch phase }
{
    match phase {
        Phase::Next { .. } => Event::Exarm { latch },
        _ => Event::Sleep { latch },
    }
}

// The event of a load of the waiters flag.
#[inline(always)]
fn flag_event(latch: u32, phase: Phase) -> Event
    ensures { result ≡ flag_event latch phase }
{
    match phase {
        Phase::OwesLook { .. } => Event::Look { latch },
        _ => Event::Quit { latch },
    }
}
