//! What the program answers to an input that was read.

ghost use Rattle.std.specs.Prelude.{◌≡◌, ◌<◌, ◌≤◌, ◌^◌, IfOk, None, length, true};
ghost use Rattle.ib_io.specs.Lines.{readings_by};
ghost use Rattle.ib_io.specs.Told.{HasTold, IsOutOfMemory, IsOutOfMemoryWhere, Told};
ghost use Rattle.ib_replay.specs.Files.{AreWords, file_of};
ghost use Rattle.ib_script.specs.Loads.{is_load};
ghost use Rattle.ib_script.specs.Script.{IsSmall, first_fault, reading_of};
ghost use Rattle.ib_tool.specs.Answers.{AnswersInput, AnswersScript, MayLackInput};
ghost use Rattle.ib_tool.specs.Texts.{IsCountText, IsRawText, IsWrittenRun};
ghost use Rattle.ib_tool.specs.Words.{IsLawfulForm};

use crate::form::Form;
use crate::print::{Bytes, CountText, RunText};
use crate::shape::Shape;
use ib_hash::Guesses;
use ib_image_form::{answer_image, image_of_run};
use ib_index::Index;
use ib_io::{INPUT_BYTES, Sink, Status, refuse, tell};
use ib_latch_form::answer_events;
use ib_map::OutOfMemory;
use ib_pair_form::answer_pair;
use ib_replay::write_log;
use ib_replay_form::{answer_log, answer_upgrade};
use ib_runs::{Access, Descents, Gate, Nobody, run_script};
use ib_script::{Load, PlainLines, Script, generate, read_script};
use std::alloc::Global;
use std::sync::Wait;
use std::thread::Threads;

// The file of a log of so many pages and these words.
fn file_of(alloc: Global, pages: u32, words: &[u64]) -> Result<Vec<u8>, OutOfMemory>
    requires { length words.now < 2 ^ 32 }
    ensures bytes { IfOk result (λ bytes. bytes.items ≡ file_of pages words.now) }
    // They are words of 64 bits, and so can be read again.
    ensures fits { AreWords words.now }
{
    let mut bytes = vec![in alloc; 0; 16 + 8 * words.len()]?;
    write_log(pages, words, bytes.as_mut_slice());
    Ok(bytes)
}

// Runs a script: the file of the log of the run.
fn log_file_of_run<A: Access<Index> + Sync, G: Gate + Sync, R: Threads + Wait + Sync>(
    rt: &R,
    alloc: Global,
    script: &Script,
    gate: &G,
) -> Result<Vec<u8>, OutOfMemory>
    requires { IsSmall script.now }
    ensures { IfOk result (λ bytes. IsRawText script.now bytes.items) }
{
    let ran = run_script::<Index, A, _, _, _>(rt, alloc, script, &mut Nobody, gate)?;
    let geometry = script.geometry();
    // For the proof: a log has fewer words than 2^32.
    let _ = geometry.log_words();
    let log = ran.closed.log(alloc)?;
    file_of(alloc, geometry.pages(), log.as_slice())
}

// Runs a script, and writes what is asked of the run.
fn run<A: Access<Index> + Sync, K: Sink, G: Gate + Sync, R: Threads + Wait + Sync>(
    rt: &R,
    alloc: Global,
    shape: Shape,
    script: &Script,
    sink: &mut K,
    gate: &G,
) -> Status
    requires { IsSmall script.now }
    ensures { HasTold K.written K.faults (Told (λ e. (e.status ≡ Status.Done) × IsWrittenRun shape script.now e.text) IsOutOfMemory) sink.old sink.new result }
{
    match shape {
        Shape::Text => match run_script::<Index, A, _, _, _>(rt, alloc, script, &mut Nobody, gate) {
            Ok(ran) => tell(sink, RunText { ran }, Status::Done),
            Err(_) => Status::Memory,
        },
        Shape::File => match log_file_of_run::<A, _, _>(rt, alloc, script, gate) {
            Ok(bytes) => tell(sink, Bytes { bytes }, Status::Done),
            Err(_) => Status::Memory,
        },
        Shape::Image => match image_of_run(rt, alloc, script, gate) {
            Ok(bytes) => tell(sink, Bytes { bytes }, Status::Done),
            Err(_) => Status::Memory,
        },
    }
}

// Answers a script that was read: runs it, or tells where it is refused and why. Memory may be wanting only where no line is bad.
fn answer_script<A: Access<Index> + Sync, K: Sink, G: Gate + Sync, R: Threads + Wait + Sync>(
    rt: &R,
    alloc: Global,
    shape: Shape,
    input: &[u8],
    sink: &mut K,
    gate: &G,
) -> Status
    requires { length input.now ≤ INPUT_BYTES }
    ensures { HasTold K.written K.faults (Told (AnswersScript shape input.now) (IsOutOfMemoryWhere (first_fault (readings_by reading_of input.now) ≡ None))) sink.old sink.new result }
{
    match read_script::<PlainLines>(alloc, input) {
        Ok(script) => run::<A, _, _, _>(rt, alloc, shape, &script, sink, gate),
        Err(fault) => refuse(sink, fault),
    }
}

// Runs a script that is generated, and writes how often each reply came.
fn answer_load<K: Sink, G: Gate + Sync, R: Threads + Wait + Sync>(
    rt: &R,
    alloc: Global,
    load: Load,
    sink: &mut K,
    gate: &G,
) -> Status
    requires { is_load load.commands load.seed load.sessions ≡ true }
    ensures { HasTold K.written K.faults (Told (λ e. (e.status ≡ Status.Done) × IsCountText load e.text) IsOutOfMemory) sink.old sink.new result }
{
    let Ok(script) = generate(alloc, load) else {
        return Status::Memory;
    };
    match run_script::<Index, Descents, _, _, _>(rt, alloc, &script, &mut Nobody, gate) {
        Ok(ran) => tell(sink, CountText { ran }, Status::Done),
        Err(_) => Status::Memory,
    }
}

/// Answers an input that was read, as the form says.
pub fn answer<K: Sink, G: Gate + Sync, R: Threads + Wait + Sync>(
    rt: &R,
    alloc: Global,
    form: Form,
    input: &[u8],
    sink: &mut K,
    gate: &G,
) -> Status
    requires few { length input.now ≤ INPUT_BYTES }
    requires lawful { IsLawfulForm form }
    ensures { HasTold K.written K.faults (Told (AnswersInput form input.now) (IsOutOfMemoryWhere (MayLackInput form input.now))) sink.old sink.new result }
{
    match form {
        Form::Run => answer_script::<Descents, _, _, _>(rt, alloc, Shape::Text, input, sink, gate),
        Form::Fast => answer_script::<Guesses, _, _, _>(rt, alloc, Shape::Text, input, sink, gate),
        Form::Pair => answer_pair(rt, alloc, input, sink, gate),
        Form::Raw => answer_script::<Descents, _, _, _>(rt, alloc, Shape::File, input, sink, gate),
        Form::Image => {
            answer_script::<Descents, _, _, _>(rt, alloc, Shape::Image, input, sink, gate)
        }
        Form::Latch => answer_events(alloc, input, sink),
        Form::Replay => answer_log(alloc, input, sink),
        Form::Upgrade => answer_upgrade(alloc, input, sink),
        Form::Restore => answer_image(alloc, input, sink),
        Form::Gen { load } => answer_load(rt, alloc, load, sink, gate),
    }
}
