//! The image file of a copy that was made beside a script's sessions.

ghost use Rattle.std.specs.Prelude.{◌≡◌, ◌<◌, ◌^◌, List, IfOk, length, true};
ghost use Rattle.ib_map.specs.Space.{has_pages};
ghost use Rattle.ib_logrec.specs.declared.entry.Entry.{Entry};
ghost use Rattle.ib_replay.specs.Files.{AreWords};
ghost use Rattle.ib_rule.specs.Closed.{log_in};
ghost use Rattle.ib_runs.specs.Outcomes.{HasLog};
ghost use Rattle.ib_script.specs.Script.{IsSmall};
ghost use Rattle.ib_image.specs.Copies.{first_place};
ghost use Rattle.ib_image.specs.ImageFiles.{image_bytes, image_numbers};
ghost use Rattle.ib_image.specs.Restored.{IsFileOfCopy};
ghost use Rattle.ib_image_form.specs.Copying.{IsCopyWithTail, IsImageOfRun};

use crate::copier::Copier;
use ib_image::{FuzzyCopy, image_len, write_image};
use ib_index::Index;
use ib_map::OutOfMemory;
use ib_rule::SpaceWords;
use ib_runs::{Descents, Gate, run_script};
use ib_script::Script;
use std::alloc::Global;
use std::sync::Wait;
use std::thread::Threads;

// The image file of a copy and these words of its tail.
fn file_of(alloc: Global, copy: &FuzzyCopy, tail: &[u64]) -> Result<Vec<u8>, OutOfMemory>
    requires { length tail.now < 2 ^ 32 }
    ensures bytes { IfOk result (λ bytes. bytes.items ≡ image_bytes (first_place copy.now.pages) copy.now.pages tail.now) }
    ensures small { IfOk result (λ _. first_place copy.now.pages < 2 ^ 32) }
    // They are words of 64 bits, and so can be read again.
    ensures fits { IfOk result (λ _. AreWords (image_numbers (first_place copy.now.pages) copy.now.pages tail.now)) }
{
    let mut bytes = vec![in alloc; 0; image_len(copy, tail)]?;
    write_image(copy, tail, bytes.as_mut_slice());
    Ok(bytes)
}

// The image file of a copy, with the words of the closed log from the copy's `tail_word` on as its tail.
fn image_of(alloc: Global, copier: &Copier, closed: &SpaceWords) -> Result<Vec<u8>, OutOfMemory>
    requires space { has_pages closed.now.sizes.pages ≡ true }
    requires few { length (log_in closed.now.sizes closed.now.words) < 2 ^ 32 }
    requires copied { (log : List Entry) × HasLog closed.now.sizes closed.now.words log × IsCopyWithTail copier.now closed.now.sizes.pages log }
    ensures { (log : List Entry) → HasLog closed.now.sizes closed.now.words log → IsCopyWithTail copier.now closed.now.sizes.pages log
        → IfOk result (λ bytes. IsFileOfCopy bytes.items closed.now.sizes.pages log copier.now.pages) }
{
    let copy = copier.copy();
    let log = closed.log(alloc)?;
    let tail = &log.as_slice()[copy.tail_word() as usize..];
    file_of(alloc, copy, tail)
}

/// Runs the sessions of a script as `run_script` does, each call by a descent, with one more session that copies all pages
/// beside them, numbered one above the greatest. What comes of it is the image file of the copy, with the words of the
/// closed log from the copy's `tail_word` on as its tail.
///
/// Refused for want of memory alone.
pub fn image_of_run<G: Gate + Sync, R: Threads + Wait + Sync>(
    rt: &R,
    alloc: Global,
    script: &Script,
    gate: &G,
) -> Result<Vec<u8>, OutOfMemory>
    requires { IsSmall script.now }
    ensures { IfOk result (λ bytes. IsImageOfRun script.now bytes.items) }
{
    let geometry = script.geometry();
    // For the proof: a log has fewer words than 2^32.
    let _ = geometry.log_words();
    let mut copier = Copier::with_room(alloc, geometry.pages())?;
    let ran = run_script::<Index, Descents, _, _, _>(rt, alloc, script, &mut copier, gate)?;
    image_of(alloc, &copier, &ran.closed)
}
