//! The faults of an image file, one variant a cause.

ghost use Rattle.std.specs.Prelude.{◌≡◌};
ghost use Rattle.ib_image.specs.declared.fault.ImageFault.TheVariants.{OutOfMemory};

use ib_logrec::LogFault;
use std::alloc::AllocError;
use thiserror::Error;

/// Why bytes restore nothing. `at` is a number of the file, counted from 0.
#[derive(Clone, Copy, Debug, PartialEq, Eq, Error)]
pub enum ImageFault {
    /// Bytes that are no whole number of numbers.
    #[error("odd length {bytes}")]
    OddLength { bytes: usize },
    /// Fewer numbers than the file needs.
    #[error("short {numbers}")]
    Short { numbers: u32 },
    /// A number that may not stand there: it isn't one that a file begins with, or it is no place that a page of the file
    /// may have.
    #[error("word at {at} {word}")]
    BadImage { at: u32, word: u64 },
    /// The first fault of the tail's words, whose places are counted from the first of them.
    #[error("tail {fault}")]
    Tail { fault: LogFault },
    /// The memory that is restored is no lawful tree.
    #[error("not a tree")]
    NotATree,
    /// Memory lacks.
    #[error("out of memory")]
    OutOfMemory,
}

impl From<AllocError> for ImageFault {
    ghost from_gives = { λ _ fault. fault ≡ OutOfMemory };

    fn from(_error: AllocError) -> ImageFault {
        ImageFault::OutOfMemory
    }
}
