//! The turns of all sessions: each comes, has its commands answered beside all others, and goes.

ghost use Rattle.std.specs.Prelude.{◌≡◌, ◌≤◌, ◌<◌, ◌+◌, ◌∷◌, ◌++◌, ℕ, [], All, IfSome, List, Some, true, length, map, slice_index_or};
ghost use Rattle.std.specs.List.{AllByRecursion};
ghost use Rattle.ib_script.specs.Script.{IsSmall};
ghost use Rattle.ib_logrec.specs.declared.entry.Entry.{Entry};
ghost use Rattle.ib_rule.specs.Memory.{EndedFact};
ghost use Rattle.ib_rule.specs.Views.{ended_as};
ghost use Rattle.ib_rule.specs.Pass.{IsAtRest};
ghost use Rattle.ib_runs.specs.Guests.{HaveWorked, MayWork};
ghost use Rattle.ib_runs.specs.Sessions.{AreTaken};
ghost use Rattle.ib_runs.specs.Shared.{calls_under};
ghost use Rattle.ib_runs.specs.Turns.{AllDone, AreNumbered, HasNotBegun, HasTurned, HaveTurned, MayTurn};

use crate::access::Access;
use crate::beside::Beside;
use crate::gate::Gate;
use crate::session::run_session;
use crate::session_out::SessionOut;
use crate::shared::Shared;
use ib_rule::Pass;
use ib_script::Script;
use std::alloc::Global;
use std::sync::Wait;
use std::thread::{self, Threads, join_mut};

// A session's pass, its seat, and what it was answered, once its turn is over and there was memory.
pub(crate) struct Turn<S> {
    pub pass: Pass,
    pub seat: S,
    pub answers: Option<SessionOut>,
}

fn take_turn<S: Shared, A: Access<S>, G: Gate, R: Wait>(
    rt: &R,
    alloc: Global,
    access: &A,
    shared: &S,
    script: &Script,
    gate: &G,
    turn: &mut Turn<A::Seat>,
)
    requires small { IsSmall script.now }
    requires taken { AreTaken S.takes script.now.commands }
    requires serves { A.serves access.now (S.space shared.now).sizes.pages }
    requires sits { A.sits access.now turn.old.seat }
    requires ready { HasNotBegun (S.space shared.now) (length script.now.commands) turn.old.pass }
    ensures sits { A.sits access.now turn.new.seat }
    ensures turned { HasTurned (calls_under S.law) (S.space shared.now) script.now.commands turn.old turn.new }
{
    let commands = script.commands(turn.pass.number());
    let mut out = SessionOut::new(alloc);
    let run = run_session(
        rt,
        access,
        &mut turn.seat,
        shared,
        &mut turn.pass,
        commands,
        gate,
        &mut out,
    );
    turn.answers = match run {
        Ok(()) => Some(out),
        Err(_) => None,
    };
    // For the proof: it is the session of its number still.
    let _ = turn.pass.number();
}

fn take_turns<S: Shared + Sync, A: Access<S> + Sync, G: Gate + Sync, R: Threads + Wait + Sync>(
    rt: &R,
    alloc: Global,
    access: &A,
    shared: &S,
    script: &Script,
    gate: &G,
    turns: &mut [Turn<A::Seat>],
)
    requires small { IsSmall script.now }
    requires taken { AreTaken S.takes script.now.commands }
    requires serves { A.serves access.now (S.space shared.now).sizes.pages }
    requires sits { All (λ t. A.sits access.now t.seat) turns.old }
    requires ready { All (λ t. HasNotBegun (S.space shared.now) (length script.now.commands) t.pass) turns.old }
    ensures sits { (i : ℕ) (d : Turn A.Seat) → i < length turns.old → A.sits access.now (slice_index_or turns.new i d).seat }
    ensures turned { (i : ℕ) (d : Turn A.Seat) → i < length turns.old → HasTurned (calls_under S.law)
        (S.space shared.now) script.now.commands (slice_index_or turns.old i d) (slice_index_or turns.new i d) }
{
    thread::for_each_mut(
        rt,
        turns,
        64,
        &|_: usize, turn: &mut Turn<A::Seat>|
            requires { IsSmall script.now × AreTaken S.takes script.now.commands × A.serves access.now (S.space shared.now).sizes.pages
                × A.sits access.now turn.old.seat × HasNotBegun (S.space shared.now) (length script.now.commands) turn.old.pass }
            ensures { A.sits access.entry.now turn.new.seat × HasTurned (calls_under S.law)
                (S.space shared.entry.now) script.entry.now.commands turn.old turn.new }
        { take_turn(rt, alloc, access, shared, script, gate, turn) },
    );
}

// The same over a list: what a slice writes back into a list is said here once.
fn turn_all<S: Shared + Sync, A: Access<S> + Sync, G: Gate + Sync, R: Threads + Wait + Sync>(
    rt: &R,
    alloc: Global,
    access: &A,
    shared: &S,
    script: &Script,
    gate: &G,
    turns: &mut Vec<Turn<A::Seat>>,
)
    requires { MayTurn S.takes (A.sits access.now) (A.serves access.now (S.space shared.now).sizes.pages) (S.space shared.now) script.now turns.old.items }
    ensures { HaveTurned (calls_under S.law) (A.sits access.now) (S.space shared.now) script.now.commands
        turns.old.items turns.new.items }
{
    take_turns(
        rt,
        alloc,
        access,
        shared,
        script,
        gate,
        turns.as_mut_slice(),
    );
}

// The turns of all sessions, while whoever stands beside them works.
fn turn_beside<
    S: Shared + Sync,
    A: Access<S> + Sync,
    B: Beside<S>,
    G: Gate + Sync,
    R: Threads + Wait + Sync,
>(
    rt: &R,
    alloc: Global,
    access: &A,
    shared: &S,
    script: &Script,
    gate: &G,
    beside: &mut B,
    guest: &mut B::Guest,
    turns: &mut Vec<Turn<A::Seat>>,
)
    requires turns { MayTurn S.takes (A.sits access.now) (A.serves access.now (S.space shared.now).sizes.pages) (S.space shared.now) script.now turns.old.items }
    requires guests { MayWork (B.serves beside.old (S.space shared.now).sizes.pages) (S.space shared.now) (B.passes guest.old) }
    ensures turns { HaveTurned (calls_under S.law) (A.sits access.now) (S.space shared.now) script.now.commands
        turns.old.items turns.new.items }
    ensures guests { HaveWorked (B.serves beside.old) (B.serves beside.new) (B.holds beside.new (S.space shared.now).sizes.pages) (S.space shared.now)
        (B.passes guest.old) (B.passes guest.new) }
{
    if !beside.is_there() {
        turn_all(rt, alloc, access, shared, script, gate, turns);
        return;
    }
    join_mut(
        rt,
        &mut ||
            requires { MayWork (B.serves beside.now (S.space shared.now).sizes.pages) (S.space shared.now) (B.passes guest.now) }
            ensures { HaveWorked (B.serves beside.entry.now) (B.serves beside.exit.now) (B.holds beside.exit.now (S.space shared.entry.now).sizes.pages)
                (S.space shared.entry.now) (B.passes guest.entry.now) (B.passes guest.exit.now) }
        { beside.work(rt, shared, guest, gate) },
        &mut ||
            requires { MayTurn S.takes (A.sits access.now) (A.serves access.now (S.space shared.now).sizes.pages) (S.space shared.now) script.now turns.now.items }
            ensures { HaveTurned (calls_under S.law) (A.sits access.entry.now) (S.space shared.entry.now)
                script.entry.now.commands turns.entry.now.items turns.exit.now.items }
        { turn_all(rt, alloc, access, shared, script, gate, turns) },
    );
}

// Turns for the sessions 1 to `count`, or for as many as there was memory for.
fn come_all<S: Shared, A: Access<S>>(
    alloc: Global,
    access: &mut A,
    shared: &mut S,
    count: u32,
) -> Vec<Turn<A::Seat>>
    requires few { count ≤ 64 }
    requires unused { A.drawn access.old ≡ 0 }
    requires new { ((S.space shared.old).drawn ≡ 0) × ((S.space shared.old).ended ≡ []) }
    ensures serves { (pages : ℕ) → A.serves access.old pages → A.serves access.new pages }
    ensures sits { All (λ t. A.sits access.new t.seat) result.items }
    ensures space { S.space shared.new ≡ record (S.space shared.old) { drawn = length result.items } }
    ensures few { length result.items ≤ count }
    ensures numbered { AreNumbered 1 (map (λ t. t.pass) result.items) }
    ensures ready { All (λ t. HasNotBegun (S.space shared.old) count t.pass) result.items }
{
    let mut turns = Vec::new(alloc);
    for before in 0..count {
        // For the proof: the contract alone speaks of it.
        let _ = before;
        if turns.reserve(1).is_err() {
            break;
        }
        match shared.connect(alloc) {
            Ok(pass) => turns.push_reserved(Turn {
                pass,
                seat: access.connect(),
                answers: None,
            }),
            Err(_) => break,
        }
    }
    turns
}

// Puts a session's answers in front of the others. It says whether there were any, and memory for them.
fn put_first(outs: &mut Vec<SessionOut>, answers: Option<SessionOut>) -> bool
    ensures { result ≡ true → map Some outs.new.items ≡ answers ∷ map Some outs.old.items }
{
    match answers {
        Some(answers) => outs.insert(0, answers).is_ok(),
        None => false,
    }
}

// All sessions end. The answers are those of all, in order, or none where one of them wants.
fn leave_all<S: Shared, A: Access<S>>(
    alloc: Global,
    access: &mut A,
    shared: &mut S,
    mut turns: Vec<Turn<A::Seat>>,
) -> Option<Vec<SessionOut>>
    requires sits { All (λ t. A.sits access.old t.seat) turns.items }
    requires rest { All (λ t. IsAtRest (S.space shared.old) t.pass) turns.items }
    ensures space { S.space shared.new ≡ record (S.space shared.old) {
      ended = map (λ t. ended_as t.pass.view) turns.items ++ (S.space shared.old).ended;
    } }
    ensures all { IfSome result (λ outs. map (λ t. t.answers) turns.items ≡ map Some outs.items) }
{
    let mut outs = Vec::new(alloc);
    let mut whole = true;
    while let Some(turn) = turns.pop() {
        let Turn {
            pass,
            seat,
            answers,
        } = turn;
        access.disconnect(seat);
        shared.disconnect(pass);
        whole &= put_first(&mut outs, answers);
    }
    turns.destroy_empty();
    if whole { Some(outs) } else { None }
}

// All sessions of a script on what is newly opened, up to its end, and whoever works beside them. None where there was no
// memory for one of them.
pub(crate) fn run_all<
    S: Shared + Sync,
    A: Access<S> + Sync,
    B: Beside<S>,
    G: Gate + Sync,
    R: Threads + Wait + Sync,
>(
    rt: &R,
    alloc: Global,
    access: &mut A,
    beside: &mut B,
    shared: &mut S,
    script: &Script,
    gate: &G,
) -> Option<Vec<SessionOut>>
    requires small { IsSmall script.now }
    requires taken { AreTaken S.takes script.now.commands }
    requires serves { A.serves access.old (S.space shared.old).sizes.pages × B.serves beside.old (S.space shared.old).sizes.pages }
    requires unused { A.drawn access.old ≡ 0 }
    requires new { ((S.space shared.old).drawn ≡ 0) × ((S.space shared.old).ended ≡ []) }
    ensures sizes { (S.space shared.new).sizes ≡ (S.space shared.old).sizes }
    ensures left { length (S.space shared.new).ended ≡ (S.space shared.new).drawn }
    ensures serves { (pages : ℕ) → B.serves beside.old pages → B.serves beside.new pages }
    ensures done { IfSome result (λ outs. AllDone (calls_under S.law) script.now.commands outs.items (S.space shared.new)) }
    ensures holds { IfSome result (λ _. (log : List Entry) → AllByRecursion (EndedFact log) (S.space shared.new).ended
        → B.holds beside.new (S.space shared.old).sizes.pages log) }
{
    let count = script.sessions();
    let mut turns = come_all(alloc, access, shared, count);
    if turns.len() < count as usize {
        let _ = leave_all(alloc, access, shared, turns);
        return None;
    }
    let Ok(mut guest) = beside.connect(alloc, shared) else {
        let _ = leave_all(alloc, access, shared, turns);
        return None;
    };
    turn_beside(
        rt, alloc, access, shared, script, gate, beside, &mut guest, &mut turns,
    );
    B::disconnect(shared, guest);
    leave_all(alloc, access, shared, turns)
}
