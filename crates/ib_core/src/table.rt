//! The table of the latch machine: which event does what in which phase, one function a row.

ghost use Rattle.std.specs.Prelude.{◌≡◌, ◌+◌, ◌<◌, ◌≤◌, ◌^◌};
ghost use Rattle.ib_core.specs.Actor.{HasRoom, session_of};
ghost use Rattle.ib_core.specs.Member.{CanStep};
ghost use Rattle.ib_core.specs.Rows.{HasResponded, HasStepped, HasTurned, MayBegin, MayTurn};
ghost use Rattle.ib_core.specs.Sessions.{holdings};
ghost use Rattle.ib_core.specs.Responses.{latch_of};
ghost use Rattle.ib_core.specs.Table.{armed_row, asleep_row, checked_row, clear_marks, flag_marks, flagged_row, free_row, next_armed_row, next_row, next_waits_row, owes_clear_row, owes_look_row, owes_raise_row, raised_by};

use crate::actor::Actor;
use crate::event::{Answer, Event, Refusal};
use crate::phase::Phase;
use crate::session::Marks;
use ib_levels::{Latch, Level, Mode};
use ib_word::LockWord;

impl Actor {
    // One event of the session, on the latch with these words. The phases of takings and releases
    // that nobody waits for come first.
    #[inline(always)]
    pub(crate) fn step(&mut self, word: &mut LockWord, marks: &mut Marks, event: Event) -> Answer
        requires { MayTurn event word.old.0 marks.old self.old }
        ensures { HasTurned event word.old.0 marks.old self.old result
            word.new.0 marks.new self.new }
    {
        match self.phase {
            Phase::Free => self.when_free(word, marks.generation, event),
            Phase::OwesLook { latch } if latch == event.latch() => {
                self.when_owes_look(marks.waiters, event)
            }
            _ => {
                // The copies leave the words of the phases above in registers.
                let (mut word_here, mut marks_here) = (*word, *marks);
                let answer = self.step_in_phase(&mut word_here, &mut marks_here, event);
                *word = word_here;
                *marks = marks_here;
                answer
            }
        }
    }

    // The same in any phase, by its row.
    #[inline(never)]
    fn step_in_phase(&mut self, word: &mut LockWord, marks: &mut Marks, event: Event) -> Answer
        requires { MayTurn event word.old.0 marks.old self.old }
        ensures { HasTurned event word.old.0 marks.old self.old result
            word.new.0 marks.new self.new }
    {
        if self.phase.is_elsewhere(event.latch()) {
            return Answer::Refused(Refusal::OutOfTurn);
        }
        match self.phase {
            Phase::Free => self.when_free(word, marks.generation, event),
            Phase::Armed {
                mode,
                level,
                generation,
                ..
            } => self.when_armed(marks, event, mode, level, generation),
            Phase::Flagged {
                mode,
                level,
                generation,
                ..
            } => self.when_flagged(word, event, mode, level, generation),
            Phase::Checked {
                mode,
                level,
                generation,
                ..
            } => self.when_checked(marks.generation, event, mode, level, generation),
            Phase::Asleep {
                mode,
                level,
                generation,
                ..
            } => self.when_asleep(marks.generation, event, mode, level, generation),
            Phase::Next { level, .. } => self.when_next(*word, marks.ex_generation, event, level),
            Phase::NextArmed {
                level,
                generation,
                ..
            } => self.when_next_armed(*word, event, level, generation),
            Phase::NextChecked {
                level,
                generation,
                ..
            }
            | Phase::NextAsleep {
                level,
                generation,
                ..
            } => self.when_next_waits(marks.ex_generation, event, level, generation),
            Phase::OwesLook { .. } => self.when_owes_look(marks.waiters, event),
            Phase::OwesClear { .. } => self.when_owes_clear(marks, event),
            Phase::OwesRaise { .. } => self.when_owes_raise(&mut marks.generation, event),
            Phase::OwesRaiseEx { .. } => self.when_owes_raise(&mut marks.ex_generation, event),
        }
    }

    // The events of a session that is in the middle of nothing.
    #[inline(always)]
    fn when_free(&mut self, word: &mut LockWord, generation: u64, event: Event) -> Answer
        requires { MayBegin (latch_of event) word.old.0 self.old }
        ensures { HasStepped (latch_of event) word.old.0 self.old result word.new.0 self.new
            (free_row word.old.0 generation event (session_of self.old)) }
    {
        match event {
            Event::S { latch, level } => self.take_s(word, Latch(latch), level),
            Event::Sx { latch, level } => self.take_sx(word, Latch(latch), level),
            Event::X { latch, level } => self.take_x(word, Latch(latch), level),
            Event::Us { latch } => self.give_s(word, Latch(latch)),
            Event::Usx { latch } => self.give_sx(word, Latch(latch)),
            Event::Ux { latch } => self.give_x(word, Latch(latch)),
            Event::Arm { latch, mode, level } => self.arm(Latch(latch), mode, level, generation),
            _ => Answer::Refused(Refusal::OutOfTurn),
        }
    }

    // The events of a session that recorded the generation, to wait.
    fn when_armed(
        &mut self,
        marks: &mut Marks,
        event: Event,
        mode: Mode,
        level: Level,
        generation: u64,
    ) -> Answer
        ensures responds { HasResponded self.old result self.new
            (armed_row mode level generation event (session_of self.old)) }
        ensures marks { marks.new ≡ flag_marks event marks.old }
    {
        match event {
            Event::Flag { latch } => {
                marks.waiters = true;
                self.phase = Phase::Flagged {
                    latch,
                    mode,
                    level,
                    generation,
                };
                Answer::Flagged
            }
            Event::Quit { .. } => self.quit(),
            _ => Answer::Refused(Refusal::OutOfTurn),
        }
    }

    // The events of a session that set the waiters flag.
    fn when_flagged(
        &mut self,
        word: &mut LockWord,
        event: Event,
        mode: Mode,
        level: Level,
        generation: u64,
    ) -> Answer
        requires can { CanStep (latch_of event) word.old.0 (session_of self.old) }
        requires none { holdings (latch_of event) (session_of self.old) ≡ 0 }
        requires room { HasRoom (latch_of event) self.old }
        ensures { HasStepped (latch_of event) word.old.0 self.old result word.new.0 self.new
            (flagged_row mode level generation word.old.0 event (session_of self.old)) }
    {
        match event {
            Event::Again { latch } => {
                let checked = Phase::Checked {
                    latch,
                    mode,
                    level,
                    generation,
                };
                self.take_first(word, Latch(latch), mode, level, checked)
            }
            Event::Quit { .. } => self.quit(),
            _ => Answer::Refused(Refusal::OutOfTurn),
        }
    }

    // The events of a session whose wish was refused once more.
    fn when_checked(
        &mut self,
        now: u64,
        event: Event,
        mode: Mode,
        level: Level,
        generation: u64,
    ) -> Answer
        ensures { HasResponded self.old result self.new
            (checked_row mode level generation now event (session_of self.old)) }
    {
        match event {
            Event::Quit { .. } => self.quit(),
            _ => self.when_asleep(now, event, mode, level, generation),
        }
    }

    // The events of a session that sleeps.
    fn when_asleep(
        &mut self,
        now: u64,
        event: Event,
        mode: Mode,
        level: Level,
        generation: u64,
    ) -> Answer
        ensures { HasResponded self.old result self.new
            (asleep_row mode level generation now event (session_of self.old)) }
    {
        match event {
            Event::Sleep { latch } => {
                let asleep = Phase::Asleep {
                    latch,
                    mode,
                    level,
                    generation,
                };
                self.sleep(now, generation, asleep, Phase::Free)
            }
            _ => Answer::Refused(Refusal::OutOfTurn),
        }
    }

    // The events of a next writer.
    fn when_next(&mut self, word: LockWord, now: u64, event: Event, level: Level) -> Answer
        requires { holdings (latch_of event) (session_of self.old) ≤ 1 }
        ensures { HasResponded self.old result self.new
            (next_row level word.0 now event (session_of self.old)) }
    {
        match event {
            Event::Ready { latch } => self.ready(word, Latch(latch), Phase::Next { latch, level }),
            Event::Exarm { latch } => {
                self.phase = Phase::NextArmed {
                    latch,
                    level,
                    generation: now,
                };
                Answer::Armed { generation: now }
            }
            _ => Answer::Refused(Refusal::OutOfTurn),
        }
    }

    // The events of a next writer that recorded the ex generation.
    fn when_next_armed(
        &mut self,
        word: LockWord,
        event: Event,
        level: Level,
        generation: u64,
    ) -> Answer
        requires { holdings (latch_of event) (session_of self.old) ≤ 1 }
        ensures { HasResponded self.old result self.new
            (next_armed_row level generation word.0 event (session_of self.old)) }
    {
        match event {
            Event::Ready { latch } => {
                let checked = Phase::NextChecked {
                    latch,
                    level,
                    generation,
                };
                self.ready(word, Latch(latch), checked)
            }
            _ => Answer::Refused(Refusal::OutOfTurn),
        }
    }

    // The events of a next writer that found readers, or that sleeps.
    fn when_next_waits(&mut self, now: u64, event: Event, level: Level, generation: u64) -> Answer
        ensures { HasResponded self.old result self.new
            (next_waits_row level generation now event (session_of self.old)) }
    {
        match event {
            Event::Sleep { latch } => {
                let asleep = Phase::NextAsleep {
                    latch,
                    level,
                    generation,
                };
                self.sleep(now, generation, asleep, Phase::Next { latch, level })
            }
            _ => Answer::Refused(Refusal::OutOfTurn),
        }
    }

    // The events of a session that owes a look at the waiters flag.
    #[inline(always)]
    fn when_owes_look(&mut self, waiters: bool, event: Event) -> Answer
        ensures { HasResponded self.old result self.new
            (owes_look_row waiters event (session_of self.old)) }
    {
        match event {
            Event::Look { latch } => {
                self.phase = if waiters {
                    Phase::OwesClear { latch }
                } else {
                    Phase::Free
                };
                Answer::Looked { waiters }
            }
            _ => Answer::Refused(Refusal::OutOfTurn),
        }
    }

    // The events of a session that owes the clearing of the waiters flag.
    fn when_owes_clear(&mut self, marks: &mut Marks, event: Event) -> Answer
        ensures responds { HasResponded self.old result self.new
            (owes_clear_row marks.old.waiters event (session_of self.old)) }
        ensures marks { marks.new ≡ clear_marks event marks.old }
    {
        match event {
            Event::Clear { latch } => {
                let was = marks.waiters;
                marks.waiters = false;
                self.phase = if was {
                    Phase::OwesRaise { latch }
                } else {
                    Phase::Free
                };
                Answer::Cleared { was }
            }
            _ => Answer::Refused(Refusal::OutOfTurn),
        }
    }

    // The events of a session that owes a raise of this generation.
    fn when_owes_raise(&mut self, generation: &mut u64, event: Event) -> Answer
        requires { generation.old + 1 < 2 ^ 64 }
        ensures responds { HasResponded self.old result self.new
            (owes_raise_row generation.old event (session_of self.old)) }
        ensures generation { generation.new ≡ raised_by event generation.old }
    {
        match event {
            Event::Raise { .. } => {
                *generation += 1;
                self.phase = Phase::Free;
                Answer::Signalled {
                    generation: *generation,
                }
            }
            _ => Answer::Refused(Refusal::OutOfTurn),
        }
    }
}
