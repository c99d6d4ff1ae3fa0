//! What is answered to an image file that was read.

ghost use Rattle.std.specs.Prelude.{◌≡◌, ◌≤◌, length, None};
ghost use Rattle.ib_io.specs.Told.{HasTold, IsOutOfMemoryWhere, Told};
ghost use Rattle.ib_image.specs.ImageFaults.{front_fault};
ghost use Rattle.ib_image_form.specs.Answers.{AnswersImage};

use crate::bad_image::BadImage;
use crate::restored_map::show;
use ib_image::{ImageFault, restore};
use ib_io::{INPUT_BYTES, Sink, Status, tell};
use std::alloc::Global;

/// Answers an image file that was read: writes the map that it restores, or tells where it is refused and why. Memory may
/// be wanting only where the numbers in front have no fault.
pub fn answer_image<K: Sink>(alloc: Global, input: &[u8], sink: &mut K) -> Status
    requires { length input.now ≤ INPUT_BYTES }
    ensures { HasTold K.written K.faults (Told (AnswersImage input.now) (IsOutOfMemoryWhere (front_fault input.now ≡ None))) sink.old sink.new result }
{
    match restore(alloc, input) {
        Ok(restored) => show(sink, restored),
        Err(fault) => match fault {
            ImageFault::OutOfMemory => Status::Memory,
            _ => tell(sink, BadImage { fault }, Status::BadLog),
        },
    }
}
