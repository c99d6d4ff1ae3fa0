//! The public call `top`: the program, from the bytes that it reads to the bytes that it writes.

ghost use Rattle.std.specs.Prelude.{◌≡◌, Some, map, string_bytes};
ghost use Rattle.ib_io.specs.Faults.{Rose};
ghost use Rattle.ib_tool.specs.Answers.{IsCutOff, IsOwedAt, IsServed, IsSilent, IsSilentAt, Owes, OwesInput, TellsFaults};
ghost use Rattle.ib_io.specs.Told.{IsComplete, Told};
ghost use Rattle.ib_tool.specs.Words.{IsLawfulForm, form_of};
ghost use Rattle.ib_tool.specs.declared.form.Form.{Form};

use crate::answer::answer;
use crate::form::{Form, form_of};
use crate::told_lines::{TooLargeLine, UsageLine};
use ib_io::{INPUT_BYTES, ReadError, Sink, Source, Status, read_all, tell};
use ib_runs::Gate;
use std::alloc::Global;
use std::sync::Wait;
use std::thread::Threads;

// Reads the input, and answers it.
fn read_and_answer<S: Source, K: Sink, G: Gate + Sync, R: Threads + Wait + Sync>(
    rt: &R,
    alloc: Global,
    form: Form,
    source: &mut S,
    sink: &mut K,
    gate: &G,
) -> Status
    requires { IsLawfulForm form }
    ensures told { Told (OwesInput form (S.left source.old) (S.left source.new)) (IsCutOff (S.left source.old) (S.left source.new)) (K.written sink.old) (K.written sink.new) result }
    ensures faults { TellsFaults result (S.faults source.old) (S.faults source.new) (K.faults sink.old) (K.faults sink.new) }
{
    match read_all(alloc, source, INPUT_BYTES) {
        Ok(input) => answer(rt, alloc, form, &input, sink, gate),
        Err(ReadError::Memory) => Status::Memory,
        Err(ReadError::Fault) => Status::ReadFault,
        Err(ReadError::TooLarge) => tell(sink, TooLargeLine, Status::TooLarge),
    }
}

// Does what a form says.
fn act<S: Source, K: Sink, G: Gate + Sync, R: Threads + Wait + Sync>(
    rt: &R,
    alloc: Global,
    form: Form,
    source: &mut S,
    sink: &mut K,
    gate: &G,
) -> Status
    requires { IsLawfulForm form }
    ensures told { Told (IsOwedAt form (S.left source.old) (S.left source.new)) (IsSilentAt form (S.left source.old) (S.left source.new)) (K.written sink.old) (K.written sink.new) result }
    ensures faults { TellsFaults result (S.faults source.old) (S.faults source.new) (K.faults sink.old) (K.faults sink.new) }
{
    if form.reads() {
        read_and_answer(rt, alloc, form, source, sink, gate)
    } else {
        answer(rt, alloc, form, &[], sink, gate)
    }
}

// Reads the words, and does what they say.
fn dispatch<S: Source, K: Sink, G: Gate + Sync, R: Threads + Wait + Sync>(
    rt: &R,
    alloc: Global,
    words: &[String],
    source: &mut S,
    sink: &mut K,
    gate: &G,
) -> Status
    ensures told { Told (Owes (map (λ w. string_bytes w) words.now) (S.left source.old) (S.left source.new))
        (IsSilent (map (λ w. string_bytes w) words.now) (S.left source.old) (S.left source.new)) (K.written sink.old) (K.written sink.new) result }
    ensures faults { TellsFaults result (S.faults source.old) (S.faults source.new) (K.faults sink.old) (K.faults sink.new) }
{
    match form_of(words) {
        Some(form) => act(rt, alloc, form, source, sink, gate),
        None => tell(sink, UsageLine, Status::Usage),
    }
}

/// The program, from the words of its command line and the bytes that it reads to the bytes that it writes.
///
/// `run`, alone, reads a script, runs its sessions beside each other on one shared index, and writes what each was answered,
/// the log and the map in the end. `fast`, alone, does the same, and its sessions go by guesses of their leaves first. `pair`,
/// alone, reads a script of two trees, runs its sessions beside each other on one shared pair, and writes the same and the keys
/// of the second tree. `raw`, alone, does what `run` does, and writes the file of the log. `image`, alone, does what `run` does,
/// with one more session that copies all pages beside the others, and writes the image file of the copy and its tail. `latch`,
/// alone, reads events, makes them on the latch machine of one thread, and writes each with its answer and its latch's word
/// afterwards. `replay`, alone, reads a raw log, and writes its log and its map. `upgrade`, alone, reads a log of version 1,
/// brings it over, and writes the file of the log that it became. `restore`, alone, reads an image file, and writes the map
/// that it restores. `gen N SEED SESSIONS` reads nothing, runs the script that these numbers generate, and writes how often
/// each reply came, and how many pairs the map has. Any other words get the usage line, which names none of `fast`, `image`,
/// `pair`, `upgrade` and `restore`.
///
/// The gate is called before each command of a session, and once after its last, and so for the session that copies, as for
/// one of one command; and so once more for all, where a first run on a shorter log filled that. The sessions of `run`, `fast`, `pair`, `raw`, `image` and `gen` wait for each other, so this may wait too.
pub fn top<S: Source, K: Sink, G: Gate + Sync, R: Threads + Wait + Sync>(
    rt: &R,
    alloc: Global,
    words: &[String],
    source: &mut S,
    sink: &mut K,
    gate: &G,
) -> Status
    // Which status owes which text, and how much of it was written.
    ensures told { Told (Owes (map (λ w. string_bytes w) words.now) (S.left source.old) (S.left source.new))
        (IsSilent (map (λ w. string_bytes w) words.now) (S.left source.old) (S.left source.new)) (K.written sink.old) (K.written sink.new) result }

    // A fault is told only where that object's count rose in this call, and where none is told none came.
    ensures faults { TellsFaults result (S.faults source.old) (S.faults source.new) (K.faults sink.old) (K.faults sink.new) }

    // A form that gets what it needs is answered and the whole output written, unless memory runs out or one side fails.
    ensures complete { (form : Form) → form_of (map (λ w. string_bytes w) words.now) ≡ Some form → IsServed form (S.left source.old) →
        (Rose (S.faults source.old) (S.faults source.new) → ⊥) → (Rose (K.faults sink.old) (K.faults sink.new) → ⊥) →
        IsComplete (Owes (map (λ w. string_bytes w) words.now) (S.left source.old) (S.left source.new)) (K.written sink.old) (K.written sink.new) result }
{
    dispatch(rt, alloc, words, source, sink, gate)
}
