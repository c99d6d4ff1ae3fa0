//! The sessions of a script, each as work of its own, on what is newly opened for them.

ghost use Rattle.std.specs.Prelude.{◌≡◌, ℕ, List, IfOk};
ghost use Rattle.std.specs.List.{AllByRecursion};
ghost use Rattle.ib_logrec.specs.declared.entry.Entry.{Entry};
ghost use Rattle.ib_rule.specs.Memory.{EndedFact};
ghost use Rattle.ib_script.specs.Script.{IsSmall};
ghost use Rattle.ib_runs.specs.Outcomes.{HasRanBeside, IsSettled};
ghost use Rattle.ib_runs.specs.Sessions.{AreTaken};
ghost use Rattle.ib_runs.specs.Shared.{calls_under};
ghost use Rattle.ib_runs.specs.Turns.{AllDone};

use crate::access::Access;
use crate::beside::Beside;
use crate::first_log::{first_sizes, is_settled};
use crate::gate::Gate;
use crate::ran::{Ran, read_off};
use crate::session_out::SessionOut;
use crate::shared::Shared;
use crate::turns::run_all;
use ib_layout::Geometry;
use ib_map::OutOfMemory;
use ib_script::Script;
use std::alloc::{AllocError, Global};
use std::sync::Wait;
use std::thread::Threads;

// Closes what was shared, where nobody is connected, and reads off what it holds.
fn finish<S: Shared, B: Beside<S>>(
    alloc: Global,
    beside: &B,
    shared: S,
    script: &Script,
    sizes: Geometry,
    sessions: Vec<SessionOut>,
) -> Result<Ran, OutOfMemory>
    requires sizes { (S.space shared).sizes ≡ sizes }
    requires done { AllDone (calls_under S.law) script.now.commands sessions.items (S.space shared) }
    requires holds { (log : List Entry) → AllByRecursion (EndedFact log) (S.space shared).ended → B.holds beside.now sizes.pages log }
    ensures ran { IfOk result (HasRanBeside (calls_under S.law) (B.holds beside.now sizes.pages) sizes script.now.commands) }
    ensures sizes { IfOk result (λ ran. ran.closed.sizes ≡ sizes) }
{
    // For the proof: what was answered fits the whole log.
    S::laws();
    let closed = shared.into_words();
    let (history, map) = read_off::<S>(alloc, &closed, sizes)?;
    Ok(Ran {
        sessions,
        history,
        map,
        closed,
    })
}

// Runs the sessions on what is opened with these sizes.
fn run_in<
    S: Shared + Sync,
    A: Access<S> + Sync,
    B: Beside<S>,
    G: Gate + Sync,
    R: Threads + Wait + Sync,
>(
    rt: &R,
    alloc: Global,
    script: &Script,
    sizes: Geometry,
    beside: &mut B,
    gate: &G,
) -> Result<Ran, OutOfMemory>
    requires small { IsSmall script.now }
    requires taken { AreTaken S.takes script.now.commands }
    requires serves { B.serves beside.old sizes.pages }
    ensures serves { (pages : ℕ) → B.serves beside.old pages → B.serves beside.new pages }
    ensures ran { IfOk result (HasRanBeside (calls_under S.law) (B.holds beside.new sizes.pages) sizes script.now.commands) }
    ensures sizes { IfOk result (λ ran. ran.closed.sizes ≡ sizes) }
{
    let mut access = A::open(alloc, sizes.pages())?;
    let mut shared = S::open(alloc, sizes)?;
    match run_all(rt, alloc, &mut access, beside, &mut shared, script, gate) {
        Some(sessions) => finish(alloc, beside, shared, script, sizes, sessions),
        None => {
            shared.discard();
            Err(AllocError)
        }
    }
}

/// Runs the sessions 1 up to the greatest of a script on a new `S` of its pages, an index say, each as work of its own, on
/// up to 64 threads, with the gate before each command. Their calls reach their leaves as `A` says: on an index by
/// `Descents`, or by `Guesses`, of which there is one for all sessions. What comes of the run is said by the same clauses
/// for each. When all have ended it is closed, and what it holds is read off its words: the history off its log, and the
/// map off the leaves of its first tree.
///
/// The log is first as long as the script's changes mostly need, where the script's own is longer. Only if a reply tells
/// that it got full is what came of that run dropped: then all sessions run again, on a new `S` with the script's whole
/// log, and the gate is called anew for each of their commands. So the log of the closed space is the script's own, or a
/// shorter one that did not get full. How many runs there were, and how often the gate was called, is by the code: a run
/// that was dropped leaves no trace.
///
/// `beside` works on it while they run: `Nobody`, or one session more, which changes nothing. What it has then is
/// of the log that the closed space has. Where all sessions run again, so does it.
///
/// Refused for want of memory alone, anywhere, and then all is given back.
///
/// ```
/// let ran = run_script::<Index, Descents, _, _, _>(rt, alloc, &script, &mut Nobody, &OpenGate)?;
/// ```
pub fn run_script<
    S: Shared + Sync,
    A: Access<S> + Sync,
    B: Beside<S>,
    G: Gate + Sync,
    R: Threads + Wait + Sync,
>(rt: &R, alloc: Global, script: &Script, beside: &mut B, gate: &G) -> Result<Ran, OutOfMemory>
    requires small { IsSmall script.now }
    requires taken { AreTaken S.takes script.now.commands }
    requires serves { B.serves beside.old script.now.sizes.pages }
    ensures ran { IfOk result (HasRanBeside (calls_under S.law) (B.holds beside.new script.now.sizes.pages) script.now.sizes script.now.commands) }
    ensures settled { IfOk result (IsSettled script.now.sizes) }
{
    let sizes = script.geometry();
    let first = first_sizes::<S>(script);
    let ran = run_in::<S, A, _, _, _>(rt, alloc, script, first, beside, gate)?;
    if is_settled::<S>(&ran, first, sizes) {
        return Ok(ran);
    }
    // The words of the first run are given back before there is a second one.
    drop(ran);
    run_in::<S, A, _, _, _>(rt, alloc, script, sizes, beside, gate)
}
