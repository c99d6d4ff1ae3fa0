//! What is answered to a script of two trees.

ghost use Rattle.std.specs.Prelude.{◌≡◌, ◌≤◌, length, None};
ghost use Rattle.ib_io.specs.Lines.{readings_by};
ghost use Rattle.ib_io.specs.Told.{HasTold, IsOutOfMemory, IsOutOfMemoryWhere, Told};
ghost use Rattle.ib_runs.specs.Sessions.{AreTaken};
ghost use Rattle.ib_script.specs.PairScript.{pair_reading_of};
ghost use Rattle.ib_script.specs.Script.{IsSmall, first_fault};
ghost use Rattle.ib_pair_form.specs.Answers.{AnswersPairScript, IsPairRunText};
ghost use Rattle.ib_pair_form.specs.PairCalls.{IsPairCall};

use crate::pair_descents::PairDescents;
use crate::print::PairText;
use crate::shared_pair::{SECOND_ROOT, SharedPair};
use ib_io::{INPUT_BYTES, Sink, Status, refuse, tell};
use ib_pair_law::pair_law;
use ib_runs::{Gate, Nobody, pairs_of, run_script};
use ib_script::{Script, read_pair_script};
use std::alloc::Global;
use std::sync::Wait;
use std::thread::Threads;

// Runs a script, and writes what its sessions came to.
fn run<K: Sink, G: Gate + Sync, R: Threads + Wait + Sync>(
    rt: &R,
    alloc: Global,
    script: &Script,
    sink: &mut K,
    gate: &G,
) -> Status
    requires small { IsSmall script.now }
    requires taken { AreTaken IsPairCall script.now.commands }
    ensures { HasTold K.written K.faults (Told (λ e. (e.status ≡ Status.Done) × IsPairRunText script.now e.text) IsOutOfMemory) sink.old sink.new result }
{
    // For the proof: what the logs of a pair say of both trees.
    pair_law();
    let geometry = script.geometry();
    let Ok(ran) = run_script::<SharedPair, PairDescents, _, _, _>(
        rt,
        alloc,
        script,
        &mut Nobody,
        gate,
    ) else {
        return Status::Memory;
    };
    let Ok(second) = pairs_of::<SharedPair>(alloc, &ran.closed, geometry.pages(), SECOND_ROOT)
    else {
        return Status::Memory;
    };
    tell(sink, PairText { ran, second }, Status::Done)
}

/// Answers a script of two trees that was read: runs it, or tells where it is refused and why. Memory may be wanting only where no
/// line is bad.
pub fn answer_pair<K: Sink, G: Gate + Sync, R: Threads + Wait + Sync>(
    rt: &R,
    alloc: Global,
    input: &[u8],
    sink: &mut K,
    gate: &G,
) -> Status
    requires { length input.now ≤ INPUT_BYTES }
    ensures { HasTold K.written K.faults (Told (AnswersPairScript input.now)
        (IsOutOfMemoryWhere (first_fault (readings_by pair_reading_of input.now) ≡ None))) sink.old sink.new result }
{
    match read_pair_script(alloc, input) {
        Ok(script) => run(rt, alloc, &script, sink, gate),
        Err(fault) => refuse(sink, fault),
    }
}
