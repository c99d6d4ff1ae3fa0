//! The bytes that a writer keeps back.

ghost use Rattle.std.specs.Prelude.{◌≡◌, ◌↔◌, ◌+◌, ◌<◌, ◌≤◌, ◌++◌, ◌∷◌, [], length, IsTrue};

use std::marker::Model;

/// How many bytes a writer keeps back before it hands them to its sink.
pub const BUFFER_BYTES: usize = 8192;

const _: () = prove!(BUFFER_BYTES == 8192);

/// Bytes that wait, at most `BUFFER_BYTES` of them. Contracts see their list.
#[derive(Drop)]
pub struct Buffer {
    bytes: [u8; BUFFER_BYTES],
    len: usize,
}

impl Model for Buffer {
    ghost use Rattle.std.specs.Prelude.{◌≤◌, List, ℕ, take};
    ghost use Rattle.ib_io.specs.declared.buffer.TheConstants.{BUFFER_BYTES};

    ghost Value = { List ℕ };

    ghost view = { λ buffer. take buffer.len buffer.bytes };

    ghost invariant = { λ buffer. buffer.len ≤ BUFFER_BYTES };
}

impl Buffer {
    pub fn new() -> Buffer
        ensures { result ≡ [] }
    {
        Buffer {
            bytes: [0; BUFFER_BYTES],
            len: 0,
        }
    }

    pub fn is_full(&self) -> bool
        ensures full { IsTrue result ↔ (length self.now ≡ BUFFER_BYTES) }
        ensures within { length self.now ≤ BUFFER_BYTES }
    {
        self.len == BUFFER_BYTES
    }

    pub fn bytes(&self) -> &[u8]
        ensures { result.now ≡ self.now }
    {
        let bytes: &[u8] = &self.bytes;
        &bytes[..self.len]
    }

    pub fn push(&mut self, byte: u8)
        requires { length self.old < BUFFER_BYTES }
        ensures { self.new ≡ self.old ++ byte ∷ [] }
    {
        self.bytes[self.len] = byte;
        self.len += 1;
    }

    // How many bytes more it takes.
    #[inline(always)]
    pub fn room(&self) -> usize
        ensures { result + length self.now ≡ BUFFER_BYTES }
    {
        BUFFER_BYTES - self.len
    }

    #[inline(always)]
    pub fn extend(&mut self, bytes: &[u8])
        requires { length self.old + length bytes.now ≤ BUFFER_BYTES }
        ensures { self.new ≡ self.old ++ bytes.now }
    {
        let end = self.len + bytes.len();
        self.bytes[self.len..end].copy_from_slice(bytes);
        self.len = end;
    }

    pub fn clear(&mut self)
        ensures { self.new ≡ [] }
    {
        self.len = 0;
    }
}
