//! The session's own turn, made by the latch machine's code on the word that the step found.

ghost use Rattle.std.specs.Prelude.{◌≡◌, ◌≢◌, ℕ, ◌+◌, ◌^◌, ◌<◌, ◌≤◌};
ghost use Rattle.ib_word.specs.Word.{word_in};
ghost use Rattle.ib_core.specs.declared.latch_word.LatchWord.TheVariants.{Lock};
ghost use Rattle.ib_core.specs.Good.{IsProper};
ghost use Rattle.ib_core.specs.Responses.{answered, latch_of};
ghost use Rattle.ib_core.specs.Sessions.{grants};
ghost use Rattle.ib_core.specs.Table.{response_of};
ghost use Rattle.ib_core.specs.Turns.{marks_found, word_for};
ghost use Rattle.ib_core.specs.Debts.{wish_of, won};
ghost use Rattle.ib_rule.specs.Steps.{refuses};
ghost use Rattle.ib_rule.specs.Told.{CanBe};
ghost use Rattle.ib_rule.specs.Views.{total, with_grant};
ghost use Rattle.ib_rule.specs.Wished.{IsWished};

use crate::looks::Grants;
use ib_core::{Answer, Event, LatchWord, Marks, Member, Phase, is_given_at};
use ib_levels::{Latch, Level, Mode};
use ib_word::{LockWord, from_cell};

// A word that any session can step from, for events that read none.
const NO_WORD: LockWord = LockWord(-1_073_741_824);

// The turn of an event on the lock word found.
#[inline(always)]
fn turn_on_lock(member: &mut Member, event: Event, found: u64) -> Answer
    requires proper { IsProper member.old.session }
    requires few { (l : ℕ) → grants l member.old.session ≤ 8192 }
    requires latch { latch_of event < member.old.latches }
    requires word { word_for event member.old.session ≡ Lock }
    requires found { CanBe Lock (latch_of event) member.old.session found }
    ensures turn { answered result member.new.session
        ≡ response_of (word_in found) (marks_found found) event member.old.session }
    ensures latches { member.new.latches ≡ member.old.latches }
{
    member.step(&mut from_cell(found), &mut Marks::FRESH, event)
}

// The turn of an event on another word.
#[inline(always)]
fn turn_on_mark(member: &mut Member, event: Event, found: u64) -> Answer
    requires proper { IsProper member.old.session }
    requires few { (l : ℕ) → grants l member.old.session ≤ 8192 }
    requires latch { latch_of event < member.old.latches }
    requires word { word_for event member.old.session ≢ Lock }
    requires found { found ≤ 2 ^ 62 }
    ensures turn { answered result member.new.session
        ≡ response_of (word_in found) (marks_found found) event member.old.session }
    ensures latches { member.new.latches ≡ member.old.latches }
{
    let mut marks = Marks {
        waiters: found > 0,
        generation: found,
        ex_generation: found,
    };
    let mut word = NO_WORD;
    member.step(&mut word, &mut marks, event)
}

// The turn of an event on the word of its latch that it reads.
#[inline(always)]
pub(crate) fn turn_on(member: &mut Member, event: Event, word: LatchWord, found: u64) -> Answer
    requires proper { IsProper member.old.session }
    requires few { (l : ℕ) → grants l member.old.session ≤ 8192 }
    requires latch { latch_of event < member.old.latches }
    requires word { word_for event member.old.session ≡ word }
    requires found { CanBe word (latch_of event) member.old.session found }
    ensures turn { answered result member.new.session
        ≡ response_of (word_in found) (marks_found found) event member.old.session }
    ensures latches { member.new.latches ≡ member.old.latches }
{
    match word {
        LatchWord::Lock => turn_on_lock(member, event, found),
        LatchWord::Writer => turn_on_mark(member, event, 0),
        LatchWord::Waiters | LatchWord::Generation | LatchWord::ExGeneration => {
            turn_on_mark(member, event, found)
        }
    }
}

// The turn of a try that was won at the word expected: for a first wish, with no walk over what is
// held.
#[inline(always)]
pub(crate) fn try_on(
    member: &mut Member,
    event: Event,
    wish: Option<(Mode, Level)>,
    expected: LockWord,
    found: u64,
) -> Answer
    requires proper { IsProper member.old.session }
    requires few { (l : ℕ) → grants l member.old.session ≤ 8192 }
    requires latch { latch_of event < member.old.latches }
    requires word { word_for event member.old.session ≡ Lock }
    requires found { CanBe Lock (latch_of event) member.old.session found }
    requires is { word_in found ≡ expected.0 }
    requires wish { IsWished wish event expected.0 member.old.session }
    ensures turn { answered result member.new.session
        ≡ response_of (word_in found) (marks_found found) event member.old.session }
    ensures latches { member.new.latches ≡ member.old.latches }
{
    match wish {
        Some(it) => member.grant_first(expected, Latch(event.latch()), it.0, it.1),
        None => turn_on_lock(member, event, found),
    }
}

// Whether the wish of who set the flag is refused at the word found.
pub(crate) fn is_refused(phase: Phase, found: u64) -> bool
    requires { found < 2 ^ 32 }
    ensures { result ≡ refuses phase found }
{
    let word = from_cell(found);
    match phase {
        Phase::Flagged { mode, .. } => !is_given_at(mode, word),
        _ => false,
    }
}

// The mode for which an event is a wish.
#[inline(always)]
fn wish(phase: Phase, event: Event) -> Option<Mode>
    ensures { result ≡ wish_of phase event }
{
    match (phase, event) {
        (Phase::Flagged { mode, .. }, Event::Again { .. }) => Some(mode),
        (Phase::Free, Event::S { .. }) => Some(Mode::S),
        (Phase::Free, Event::Sx { .. }) => Some(Mode::Sx),
        (Phase::Free, Event::X { .. }) => Some(Mode::X),
        _ => None,
    }
}

// The wish that came true, by the answer.
#[inline(always)]
fn granted(answer: Answer, wish: Option<Mode>) -> Option<Mode>
    ensures { result ≡ won answer wish }
{
    match answer {
        Answer::Granted | Answer::Reserved => wish,
        _ => None,
    }
}

// The grants after the answer of an event.
#[inline(always)]
pub(crate) fn counted(grants: Grants, phase: Phase, event: Event, answer: Answer) -> Grants
    requires { total grants < 2 ^ 63 }
    ensures { result ≡ with_grant (won answer (wish_of phase event)) grants }
{
    match granted(answer, wish(phase, event)) {
        None => grants,
        Some(Mode::S) => Grants {
            s: grants.s + 1,
            ..grants
        },
        Some(Mode::Sx) => Grants {
            sx: grants.sx + 1,
            ..grants
        },
        Some(Mode::X) => Grants {
            x: grants.x + 1,
            ..grants
        },
    }
}
