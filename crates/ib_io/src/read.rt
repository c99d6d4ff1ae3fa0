//! An input, read to its end.

ghost use Rattle.std.specs.Prelude.{◌≡◌, ◌≢◌, ◌≤◌, ◌+◌, Err, vec_len, IfOk, IsErrOf};
ghost use Rattle.ib_io.specs.Faults.{Rose};
ghost use Rattle.ib_io.specs.Input.{ConsumesAtMost, ReadsWhole};

use crate::source::Source;
use std::alloc::{AllocError, Global};
use thiserror::Error;

/// The most bytes that one call asks a source for.
pub const PIECE_BYTES: usize = 65_536;

const _: () = prove!(PIECE_BYTES == 65_536);

/// The longest input that the program reads, in bytes.
pub const INPUT_BYTES: usize = 67_108_864;

const _: () = prove!(INPUT_BYTES == 67_108_864);

/// Why an input was not read to its end.
#[derive(Clone, Copy, Debug, PartialEq, Eq, Error)]
pub enum ReadError {
    /// Memory ran out.
    #[error("out of memory")]
    Memory,
    /// The source failed.
    #[error("the source failed")]
    Fault,
    /// More than the limit was read.
    #[error("the input is too large")]
    TooLarge,
}

fn zeros(alloc: Global, count: usize) -> Result<Vec<u8>, AllocError>
    ensures { IfOk result (λ zeros. vec_len zeros ≡ count) }
{
    vec![in alloc; 0; count]
}

/// All that the source has left, piece by piece, if that is at most `limit` bytes.
pub fn read_all<S: Source>(
    alloc: Global,
    source: &mut S,
    limit: usize,
) -> Result<Vec<u8>, ReadError>
    ensures reads { ReadsWhole (S.left source.old) (S.left source.new) limit result }
    ensures within { ConsumesAtMost (S.left source.old) (S.left source.new) (limit + PIECE_BYTES) }
    ensures later { S.faults source.old ≤ S.faults source.new }
    ensures calm { result ≢ Err ReadError.Fault → S.faults source.new ≡ S.faults source.old }
    ensures fault { IsErrOf result ReadError.Fault → Rose (S.faults source.old) (S.faults source.new) }
{
    let mut bytes = Vec::new(alloc);
    let mut piece = match zeros(alloc, PIECE_BYTES) {
        Ok(piece) => piece,
        Err(_) => return Err(ReadError::Memory),
    };
    while bytes.len() <= limit {
        match source.read(&mut piece) {
            Err(_) => return Err(ReadError::Fault),
            Ok(0) => return Ok(bytes),
            Ok(count) => {
                if bytes.extend_from_slice(&piece[..count]).is_err() {
                    return Err(ReadError::Memory);
                }
            }
        }
    }
    Err(ReadError::TooLarge)
}
