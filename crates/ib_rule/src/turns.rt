//! A step on a word of a latch that is the turn of an event, and the looks that are none.

ghost use Rattle.std.specs.Prelude.{◌≡◌, ◌≢◌, ℕ, ◌-◌, ◌<◌, ◌≤◌, IfOk, IfErr};
ghost use Rattle.ib_word.specs.Word.{cell_of};
ghost use Rattle.ib_layout.specs.Places.{latches_of, words_of};
ghost use Rattle.ib_core.specs.declared.latch_word.LatchWord.TheVariants.{Lock};
ghost use Rattle.ib_core.specs.Good.{IsProper};
ghost use Rattle.ib_core.specs.Responses.{latch_of};
ghost use Rattle.ib_core.specs.Sessions.{claims};
ghost use Rattle.ib_core.specs.Turns.{Leaves, turn_at, word_for};
ghost use Rattle.ib_rule.specs.declared.kind.StepKind.TheVariants.{Look, Recheck, Try, Turn};
ghost use Rattle.ib_rule.specs.Pass.{IsOf, with_view};
ghost use Rattle.ib_rule.specs.Afterwards.{tried_on};
ghost use Rattle.ib_rule.specs.Views.{KnowsHeld, signed};
ghost use Rattle.ib_rule.specs.Steps.{event_at, latch_word_place, run, view_after};
ghost use Rattle.ib_rule.specs.Told.{CanBe, Happens, IsEvent};
ghost use Rattle.ib_rule.specs.Conditions.{CanTake, found_by};
ghost use Rattle.ib_rule.specs.Wished.{IsWished};

use crate::kind::{StepKind, WordOp};
use crate::mirror::{counted, is_refused, try_on, turn_on};
use crate::pass::Pass;
use crate::space::Space;
use crate::step::act;
use ib_core::{Answer, Event, LatchWord};
use ib_layout::Geometry;
use ib_levels::{Latch, Level, Mode};
use ib_logrec::Law;
use ib_word::{LockWord, X_LOCK_DECR, X_LOCK_HALF_DECR, from_cell, to_cell};
use std::marker::Brand;

// What a first grant of SX and one of X take off a lock word.
pub(crate) const HALF: u64 = X_LOCK_HALF_DECR as u64;

pub(crate) const WHOLE: u64 = X_LOCK_DECR as u64;

// The place of a word of a latch.
#[inline(always)]
fn place(geometry: &Geometry, word: LatchWord, latch: Latch) -> usize
    requires { latch.0 < latches_of geometry.now }
    ensures place { result ≡ latch_word_place word latch.0 }
    ensures in_range { result < words_of geometry.now }
{
    match word {
        LatchWord::Lock => geometry.lock_place(latch),
        LatchWord::Waiters => geometry.waiters_place(latch),
        LatchWord::Writer => geometry.writer_place(latch),
        LatchWord::Generation => geometry.gen_place(latch),
        LatchWord::ExGeneration => geometry.ex_gen_place(latch),
    }
}

impl<L: Law> Space<L> {
    // One step on the word of the event's latch that the event reads, which is the turn of the
    // event. It answers the word found, and what the latch machine answers there.
    #[inline(always)]
    pub(crate) fn turn(
        &self,
        pass: &mut Pass,
        event: Event,
        word: LatchWord,
        op: WordOp,
    ) -> (u64, Answer)
        requires own { IsOf self.now pass.old }
        requires latch { latch_of event < latches_of self.now.sizes }
        requires word { word_for event pass.old.view.session ≡ word }
        requires step { IsProper pass.old.view.session → (n : ℕ)
            → CanBe word (latch_of event) pass.old.view.session n
            → CanTake event pass.old.view n
            × Leaves word event pass.old.view.session n (run op n) }
        ensures view { pass.new
            ≡ with_view pass.old (view_after (Turn event) result.0 pass.old.view) }
        ensures answer { result.1 ≡ (turn_at event result.0 pass.old.view.session).answer }
        ensures event { IsEvent event pass.old.view.session result.1 pass.new.view.session }
        ensures found { CanBe word (latch_of event) pass.old.view.session result.0 }
        ensures proper { IsProper pass.old.view.session }
        ensures known { KnowsHeld pass.old.view }
    {
        let place = place(&self.geometry, word, Latch(event.latch()));
        let before = pass.member.phase();
        let found = act::<L, Brand>(
            &self.table.shared,
            &mut pass.seat,
            place,
            op,
            StepKind::Turn(event),
        );
        let answer = turn_on(&mut pass.member, event, word, found);
        pass.grants = counted(pass.grants, before, event, answer);
        (found, answer)
    }

    // One exchange of the lock word, which is the turn of the event where the word is the expected
    // one. Else it answers the word found. Of a first wish, its mode and level may be given: then
    // the turn goes over nothing that is held.
    #[inline(always)]
    pub(crate) fn exchange_turn(
        &self,
        pass: &mut Pass,
        event: Event,
        expected: LockWord,
        taken: u64,
        wish: Option<(Mode, Level)>,
    ) -> Result<Answer, LockWord>
        requires own { IsOf self.now pass.old }
        requires latch { latch_of event < latches_of self.now.sizes }
        requires word { word_for event pass.old.view.session ≡ Lock }
        requires step { IsProper pass.old.view.session
            → CanBe Lock (latch_of event) pass.old.view.session (cell_of expected.0)
            → CanTake event pass.old.view (cell_of expected.0)
            × Leaves Lock event pass.old.view.session (cell_of expected.0)
            (cell_of expected.0 - taken) }
        requires room { taken ≤ cell_of expected.0 }
        requires wish { IsWished wish event expected.0 pass.old.view.session }
        ensures view { pass.new ≡ with_view pass.old
            (view_after (Try event (cell_of expected.0)) (found_by result expected) pass.old.view) }
        ensures event { IfOk result (λ answer. IsEvent event pass.old.view.session answer
            pass.new.view.session) }
        ensures answer { IfOk result (λ answer. answer
            ≡ (turn_at event (cell_of expected.0) pass.old.view.session).answer) }
        ensures lost { IfErr result (λ found. found.0 ≢ expected.0) }
        ensures refused { IfErr result (λ found. pass.new
            ≡ with_view pass.old (tried_on (latch_of event) expected found pass.old.view)) }
        ensures found { CanBe Lock (latch_of event) pass.old.view.session
            (found_by result expected) }
        ensures proper { IsProper pass.old.view.session }
        ensures known { KnowsHeld pass.old.view }
    {
        let place = place(&self.geometry, LatchWord::Lock, Latch(event.latch()));
        let before = pass.member.phase();
        let old = to_cell(expected);
        let found = act::<L, Brand>(
            &self.table.shared,
            &mut pass.seat,
            place,
            WordOp::Exchange(old, old - taken),
            StepKind::Try(event, old),
        );
        if found != old {
            return Err(from_cell(found));
        }
        let answer = try_on(&mut pass.member, event, wish, expected, found);
        pass.grants = counted(pass.grants, before, event, answer);
        Ok(answer)
    }

    // A look at the lock word, which is no event. It answers the word found.
    pub(crate) fn look(&self, pass: &mut Pass, latch: Latch) -> u64
        requires own { IsOf self.now pass.old }
        requires latch { latch.0 < latches_of self.now.sizes }
        ensures view { pass.new
            ≡ with_view pass.old (view_after (Look latch.0) result pass.old.view) }
        ensures event { Happens (event_at (Look latch.0) pass.old.view.session result)
            pass.old.view.session result pass.new.view.session }
        ensures found { CanBe Lock latch.0 pass.old.view.session result }
    {
        let place = place(&self.geometry, LatchWord::Lock, latch);
        act::<L, Brand>(
            &self.table.shared,
            &mut pass.seat,
            place,
            WordOp::Load,
            StepKind::Look(latch.0),
        )
    }

    // A load of the lock word by who set the flag: the event `again` where the wish is refused.
    pub(crate) fn recheck(&self, pass: &mut Pass, latch: Latch) -> u64
        requires own { IsOf self.now pass.old }
        requires latch { latch.0 < latches_of self.now.sizes }
        ensures view { pass.new
            ≡ with_view pass.old (view_after (Recheck latch.0) result pass.old.view) }
        ensures event { Happens (event_at (Recheck latch.0) pass.old.view.session result)
            pass.old.view.session result pass.new.view.session }
        ensures found { CanBe Lock latch.0 pass.old.view.session result }
    {
        let place = place(&self.geometry, LatchWord::Lock, latch);
        let before = pass.member.phase();
        let found = act::<L, Brand>(
            &self.table.shared,
            &mut pass.seat,
            place,
            WordOp::Load,
            StepKind::Recheck(latch.0),
        );
        if is_refused(before, found) {
            let event = Event::Again { latch: latch.0 };
            let answer = turn_on(&mut pass.member, event, LatchWord::Lock, found);
            pass.grants = counted(pass.grants, before, event, answer);
        }
        found
    }

    // The session's number is stored as the writer.
    pub(crate) fn sign(&self, pass: &mut Pass, latch: Latch)
        requires own { IsOf self.now pass.old }
        requires latch { latch.0 < latches_of self.now.sizes }
        requires claims { 0 < claims latch.0 pass.old.view.session }
        ensures { pass.new ≡ with_view pass.old (signed latch.0 pass.old.view) }
    {
        let place = place(&self.geometry, LatchWord::Writer, latch);
        act::<L, Brand>(
            &self.table.shared,
            &mut pass.seat,
            place,
            WordOp::Swap(u64::from(pass.number)),
            StepKind::StoreWriter(latch.0),
        );
    }
}
