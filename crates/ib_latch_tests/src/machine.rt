//! The machine step by step, as sessions use it, and each phase against each event.

ghost use Rattle.std.specs.Prelude.{◌≡◌, ◌≤◌, length};

use ib_core::{Answer, Core, Counts, Event, Marks, Member, Phase, Refusal};
use ib_levels::{Latch, Level, Mode};
use ib_word::LockWord;
use std::process::Abort;
use std::test::Fail;

const NODE: Level = Level::TreeNode;

// One event: its answer, and the word of its latch afterwards.
fn row(rt: &impl Abort, core: &mut Core, session: u32, event: Event, answer: Answer, word: i32)
    requires sessions { length core.old.state.sessions ≡ 3 }
    requires latches { length core.old.state.marks ≡ 2 }
    requires session { (1 ≤ session) × (session ≤ 3) }
    ensures sessions { length core.new.state.sessions ≡ 3 }
    ensures latches { length core.new.state.marks ≡ 2 }
{
    assert!(rt; event.latch() < 2 && core.steps() < 4000);
    assert_eq!(rt; core.step(session, event), answer);
    assert_eq!(rt; core.word(event.latch()), LockWord(word));
}

#[test]
fn recursion(rt: HostRuntime) -> Result<(), Fail> {
    let x = Event::X {
        latch: 0,
        level: NODE,
    };
    let ux = Event::Ux { latch: 0 };
    let mut core = Core::new(rt.alloc(), 3, 2)?;
    row(&rt, &mut core, 1, x, Answer::Granted, 0);
    row(&rt, &mut core, 1, x, Answer::Granted, -536_870_912);
    row(&rt, &mut core, 1, x, Answer::Granted, -536_870_913);
    row(&rt, &mut core, 1, ux, Answer::Released, -536_870_912);
    row(&rt, &mut core, 1, ux, Answer::Released, 0);
    row(&rt, &mut core, 1, ux, Answer::Released, 536_870_912);
    let looked = Answer::Looked { waiters: false };
    row(
        &rt,
        &mut core,
        1,
        Event::Look { latch: 0 },
        looked,
        536_870_912,
    );
    assert_eq!(rt; core.steps(), 7);
    Ok(())
}

#[test]
fn upgrade_past_a_reader(rt: HostRuntime) -> Result<(), Fail> {
    let not_ready = Answer::NotReady {
        word: LockWord(-268_435_457),
    };
    let ready = Event::Ready { latch: 0 };
    let mut core = Core::new(rt.alloc(), 3, 2)?;
    let sx = Event::Sx {
        latch: 0,
        level: NODE,
    };
    row(&rt, &mut core, 1, sx, Answer::Granted, 268_435_456);
    let s = Event::S {
        latch: 0,
        level: NODE,
    };
    row(&rt, &mut core, 2, s, Answer::Granted, 268_435_455);
    let x = Event::X {
        latch: 0,
        level: NODE,
    };
    row(&rt, &mut core, 1, x, Answer::Reserved, -268_435_457);
    row(&rt, &mut core, 1, ready, not_ready, -268_435_457);
    let us = Event::Us { latch: 0 };
    row(&rt, &mut core, 2, us, Answer::Released, -268_435_456);
    let raise = Event::Raise { latch: 0 };
    let signalled = Answer::Signalled { generation: 1 };
    row(&rt, &mut core, 2, raise, signalled, -268_435_456);
    row(&rt, &mut core, 1, ready, Answer::Granted, -268_435_456);
    Ok(())
}

#[test]
fn no_reader_passes_a_next_writer(rt: HostRuntime) -> Result<(), Fail> {
    let mut core = Core::new(rt.alloc(), 3, 2)?;
    let s = Event::S {
        latch: 0,
        level: NODE,
    };
    let busy = Answer::Busy { word: LockWord(-1) };
    row(&rt, &mut core, 2, s, Answer::Granted, 536_870_911);
    let x = Event::X {
        latch: 0,
        level: NODE,
    };
    row(&rt, &mut core, 1, x, Answer::Reserved, -1);
    row(&rt, &mut core, 3, s, busy, -1);
    Ok(())
}

// X of session 1, and session 2 that has set the flag to wait for S.
fn flagged(rt: &impl Abort, core: &mut Core)
    requires sessions { length core.old.state.sessions ≡ 3 }
    requires latches { length core.old.state.marks ≡ 2 }
    ensures sessions { length core.new.state.sessions ≡ 3 }
    ensures latches { length core.new.state.marks ≡ 2 }
{
    let x = Event::X {
        latch: 0,
        level: NODE,
    };
    row(rt, core, 1, x, Answer::Granted, 0);
    let arm = Event::Arm {
        latch: 0,
        mode: Mode::S,
        level: NODE,
    };
    row(rt, core, 2, arm, Answer::Armed { generation: 0 }, 0);
    row(rt, core, 2, Event::Flag { latch: 0 }, Answer::Flagged, 0);
}

// The signal that session 1 owes: look, clear and raise, at this word.
fn signal(rt: &impl Abort, core: &mut Core, word: i32)
    requires sessions { length core.old.state.sessions ≡ 3 }
    requires latches { length core.old.state.marks ≡ 2 }
    ensures sessions { length core.new.state.sessions ≡ 3 }
    ensures latches { length core.new.state.marks ≡ 2 }
{
    let looked = Answer::Looked { waiters: true };
    row(rt, core, 1, Event::Look { latch: 0 }, looked, word);
    let cleared = Answer::Cleared { was: true };
    row(rt, core, 1, Event::Clear { latch: 0 }, cleared, word);
    let signalled = Answer::Signalled { generation: 1 };
    row(rt, core, 1, Event::Raise { latch: 0 }, signalled, word);
}

#[test]
fn granted_before_it_sleeps(rt: HostRuntime) -> Result<(), Fail> {
    let mut core = Core::new(rt.alloc(), 3, 2)?;
    flagged(&rt, &mut core);
    let ux = Event::Ux { latch: 0 };
    row(&rt, &mut core, 1, ux, Answer::Released, 536_870_912);
    let again = Event::Again { latch: 0 };
    row(&rt, &mut core, 2, again, Answer::Granted, 536_870_911);
    signal(&rt, &mut core, 536_870_911);
    Ok(())
}

#[test]
fn woken(rt: HostRuntime) -> Result<(), Fail> {
    let sleep = Event::Sleep { latch: 0 };
    let busy = Answer::Busy { word: LockWord(0) };
    let asleep = Answer::Asleep { generation: 0 };
    let awake = Answer::Awake { generation: 1 };
    let mut core = Core::new(rt.alloc(), 3, 2)?;
    flagged(&rt, &mut core);
    row(&rt, &mut core, 2, Event::Again { latch: 0 }, busy, 0);
    row(&rt, &mut core, 2, sleep, asleep, 0);
    let ux = Event::Ux { latch: 0 };
    row(&rt, &mut core, 1, ux, Answer::Released, 536_870_912);
    signal(&rt, &mut core, 536_870_912);
    row(&rt, &mut core, 2, sleep, awake, 536_870_912);
    let s = Event::S {
        latch: 0,
        level: NODE,
    };
    row(&rt, &mut core, 2, s, Answer::Granted, 536_870_911);
    Ok(())
}

#[test]
fn refusals(rt: HostRuntime) -> Result<(), Fail> {
    let against = Answer::Refused(Refusal::Against {
        held: Level::Log,
        wanted: NODE,
    });
    let held_already = Answer::Refused(Refusal::HeldAlready);
    let not_held = Answer::Refused(Refusal::NotHeld);
    let out_of_turn = Answer::Refused(Refusal::OutOfTurn);
    let log = Level::Log;
    let mut core = Core::new(rt.alloc(), 3, 2)?;
    let x = Event::X {
        latch: 0,
        level: log,
    };
    row(&rt, &mut core, 1, x, Answer::Granted, 0);
    let s = Event::S {
        latch: 1,
        level: NODE,
    };
    row(&rt, &mut core, 1, s, against, 536_870_912);
    let s = Event::S {
        latch: 0,
        level: log,
    };
    row(&rt, &mut core, 1, s, held_already, 0);
    let us = Event::Us { latch: 1 };
    row(&rt, &mut core, 1, us, not_held, 536_870_912);
    let sleep = Event::Sleep { latch: 1 };
    row(&rt, &mut core, 1, sleep, out_of_turn, 536_870_912);
    Ok(())
}

// Each event, on this latch.
fn events(latch: u32) -> [Event; 16] {
    let level = NODE;
    let mode = Mode::S;
    [
        Event::S { latch, level },
        Event::Sx { latch, level },
        Event::X { latch, level },
        Event::Us { latch },
        Event::Usx { latch },
        Event::Ux { latch },
        Event::Arm { latch, mode, level },
        Event::Flag { latch },
        Event::Again { latch },
        Event::Quit { latch },
        Event::Sleep { latch },
        Event::Ready { latch },
        Event::Exarm { latch },
        Event::Look { latch },
        Event::Clear { latch },
        Event::Raise { latch },
    ]
}

// In its present phase, which is about latch 0, the session is answered out of turn at each
// event but these.
fn out_of_turn(rt: &impl Abort, core: &mut Core, session: u32, listed: &[Event])
    requires sessions { length core.old.state.sessions ≡ 3 }
    requires latches { length core.old.state.marks ≡ 2 }
    requires session { (1 ≤ session) × (session ≤ 3) }
    ensures sessions { length core.new.state.sessions ≡ 3 }
    ensures latches { length core.new.state.marks ≡ 2 }
{
    for latch in 0..2 {
        for event in events(latch) {
            if listed.iter().any(|e| *e == event) {
                continue;
            }
            assert!(rt; event.latch() < 2 && core.steps() < 4000);
            let answer = core.step(session, event);
            assert_eq!(rt; answer, Answer::Refused(Refusal::OutOfTurn));
        }
    }
}

// The events of a session that is in the middle of nothing, on this latch.
fn free_events(latch: u32) -> [Event; 7] {
    let [s, sx, x, us, usx, ux, arm, ..] = events(latch);
    [s, sx, x, us, usx, ux, arm]
}

#[test]
fn each_phase_of_a_waiting_session(rt: HostRuntime) -> Result<(), Fail> {
    let [
        _,
        _,
        _,
        _,
        _,
        _,
        _,
        flag,
        again,
        quit,
        sleep,
        _,
        _,
        look,
        clear,
        raise,
    ] = events(0);
    let busy = Answer::Busy { word: LockWord(0) };
    let mut core = Core::new(rt.alloc(), 3, 2)?;
    let x = Event::X {
        latch: 0,
        level: NODE,
    };
    row(&rt, &mut core, 1, x, Answer::Granted, 0);
    let arm = Event::Arm {
        latch: 0,
        mode: Mode::S,
        level: NODE,
    };
    row(&rt, &mut core, 2, arm, Answer::Armed { generation: 0 }, 0);
    out_of_turn(&rt, &mut core, 2, &[flag, quit]);
    row(&rt, &mut core, 2, flag, Answer::Flagged, 0);
    out_of_turn(&rt, &mut core, 2, &[again, quit]);
    row(&rt, &mut core, 2, again, busy, 0);
    out_of_turn(&rt, &mut core, 2, &[sleep, quit]);
    row(
        &rt,
        &mut core,
        2,
        sleep,
        Answer::Asleep { generation: 0 },
        0,
    );
    out_of_turn(&rt, &mut core, 2, &[sleep]);
    let ux = Event::Ux { latch: 0 };
    row(&rt, &mut core, 1, ux, Answer::Released, 536_870_912);
    out_of_turn(&rt, &mut core, 1, &[look]);
    let looked = Answer::Looked { waiters: true };
    row(&rt, &mut core, 1, look, looked, 536_870_912);
    out_of_turn(&rt, &mut core, 1, &[clear]);
    let cleared = Answer::Cleared { was: true };
    row(&rt, &mut core, 1, clear, cleared, 536_870_912);
    out_of_turn(&rt, &mut core, 1, &[raise]);
    Ok(())
}

#[test]
fn each_phase_of_a_next_writer(rt: HostRuntime) -> Result<(), Fail> {
    let [
        _,
        _,
        _,
        us,
        _,
        _,
        _,
        _,
        _,
        _,
        sleep,
        ready,
        exarm,
        _,
        _,
        raise,
    ] = events(0);
    let not_ready = Answer::NotReady { word: LockWord(-1) };
    let mut core = Core::new(rt.alloc(), 3, 2)?;
    let [s0, sx0, x0, us0, usx0, ux0, arm0] = free_events(0);
    let [s1, sx1, x1, us1, usx1, ux1, arm1] = free_events(1);
    out_of_turn(
        &rt,
        &mut core,
        1,
        &[
            s0, sx0, x0, us0, usx0, ux0, arm0, s1, sx1, x1, us1, usx1, ux1, arm1,
        ],
    );
    row(&rt, &mut core, 2, s0, Answer::Granted, 536_870_911);
    row(&rt, &mut core, 1, x0, Answer::Reserved, -1);
    out_of_turn(&rt, &mut core, 1, &[ready, exarm]);
    row(
        &rt,
        &mut core,
        1,
        exarm,
        Answer::Armed { generation: 0 },
        -1,
    );
    out_of_turn(&rt, &mut core, 1, &[ready]);
    row(&rt, &mut core, 1, ready, not_ready, -1);
    out_of_turn(&rt, &mut core, 1, &[sleep]);
    row(
        &rt,
        &mut core,
        1,
        sleep,
        Answer::Asleep { generation: 0 },
        -1,
    );
    out_of_turn(&rt, &mut core, 1, &[sleep]);
    row(&rt, &mut core, 2, us, Answer::Released, 0);
    out_of_turn(&rt, &mut core, 2, &[raise]);
    Ok(())
}

// What may go over to another thread.
fn sent<T: Send>(value: T) -> T
    ensures { result ≡ value }
{
    value
}

#[test]
fn one_member(rt: HostRuntime) -> Result<(), Fail> {
    let mut member = sent(Member::idle(rt.alloc(), 2)?);
    let mut word = LockWord::FREE;
    let mut marks = Marks::FRESH;
    let x = Event::X {
        latch: 1,
        level: NODE,
    };
    let answer = member.step(&mut word, &mut marks, x);
    assert_eq!(rt;
        (answer, word, marks),
        (Answer::Granted, LockWord(0), Marks::FRESH)
    );
    assert_eq!(rt; (member.phase(), member.held().len()), (Phase::Free, 1));
    assert!(rt; member.holds(Latch(1)) && !member.holds(Latch(0)));
    assert!(rt; member.may_take(Latch(0), Level::Log).is_ok());
    assert!(rt; member.may_take(Latch(0), Level::IndexTree).is_err());
    assert_eq!(rt; member.counts(Latch(1)), Counts { s: 0, sx: 0, x: 1 });
    Ok(())
}
