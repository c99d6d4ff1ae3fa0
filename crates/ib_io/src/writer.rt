//! The buffered writer through which all that is printed goes.

ghost use Rattle.std.specs.Prelude.{◌≡◌, ◌<◌, ◌++◌, ◌∷◌, [], length, decimal};
ghost use Rattle.std.specs.Fmt.{signed_decimal};
ghost use Rattle.ib_io.specs.Writer.{IsFinished, IsFresh, Puts, pending_of, sink_name};

use crate::buffer::{BUFFER_BYTES, Buffer};
use crate::sink::{Failed, Sink, write_all};

/// The one way that text takes to a sink: through a buffer of fixed size, without memory.
/// After a failed write it takes bytes and drops them, and `finish` tells of the failure.
#[derive(Drop)]
pub struct Writer<'a, K> {
    sink: &'a mut K,
    buffer: Buffer,
    failed: bool,
}

impl<'a, K: Sink> Writer<'a, K> {
    /// A writer to this sink, with nothing waiting.
    pub fn new(sink: &'a mut K) -> Writer<'a, K>
        ensures same_reference { sink_name result ≡ sink.entry.ghost_name }
        ensures fresh { IsFresh sink.old result }
    {
        Writer {
            sink,
            buffer: Buffer::new(),
            failed: false,
        }
    }

    /// Hands what waits to the sink.
    pub fn flush(&mut self)
        ensures empty { pending_of self.new ≡ [] }
        ensures puts { Puts K.written K.faults self.old self.new [] }
    {
        if self.failed {
            self.buffer.clear();
            return;
        }
        let sent = write_all(self.sink, self.buffer.bytes());
        self.failed = sent.is_err();
        self.buffer.clear();
    }

    fn make_room(&mut self)
        ensures room { length (pending_of self.new) < BUFFER_BYTES }
        ensures puts { Puts K.written K.faults self.old self.new [] }
    {
        if !self.buffer.is_full() {
            return;
        }
        self.flush();
    }

    /// One byte.
    #[inline(always)]
    pub fn byte(&mut self, byte: u8)
        ensures puts { Puts K.written K.faults self.old self.new (byte ∷ []) }
    {
        self.make_room();
        self.buffer.push(byte);
    }

    /// These bytes.
    #[inline(always)]
    pub fn text(&mut self, bytes: &[u8])
        ensures puts { Puts K.written K.faults self.old self.new bytes.now }
    {
        if bytes.len() <= self.buffer.room() {
            self.buffer.extend(bytes);
        } else {
            self.each_byte(bytes);
        }
    }

    // These bytes, which the buffer may not take whole.
    #[cold]
    fn each_byte(&mut self, bytes: &[u8])
        ensures puts { Puts K.written K.faults self.old self.new bytes.now }
    {
        for byte in bytes {
            self.byte(*byte);
        }
    }

    /// The number in decimal.
    #[inline(always)]
    pub fn number(&mut self, number: u64)
        ensures puts { Puts K.written K.faults self.old self.new (decimal number) }
    {
        let mut digits = itoa::Buffer::new();
        self.text(digits.format(number).as_bytes());
    }

    /// The number in decimal, behind a minus sign where it is below 0.
    pub fn signed(&mut self, number: i32)
        ensures puts { Puts K.written K.faults self.old self.new (signed_decimal number) }
    {
        let mut digits = itoa::Buffer::new();
        self.text(digits.format(number).as_bytes());
    }

    /// A text and a number.
    pub fn word_and_number(&mut self, word: &[u8], number: u64)
        ensures puts { Puts K.written K.faults self.old self.new (word.now ++ decimal number) }
    {
        self.text(word);
        self.number(number);
    }

    /// A text and a number, twice.
    pub fn two_numbers(&mut self, word: &[u8], first: u64, gap: &[u8], second: u64)
        ensures puts { Puts K.written K.faults self.old self.new (word.now ++ decimal first ++ gap.now ++ decimal second) }
    {
        self.text(word);
        self.number(first);
        self.text(gap);
        self.number(second);
    }

    /// Hands the rest to the sink, and says whether all that was put since `new` went there.
    pub fn finish(&mut self) -> Result<(), Failed>
        ensures puts { Puts K.written K.faults self.old self.new [] }
        ensures finished { IsFinished self.new result }
    {
        self.flush();
        if self.failed { Err(Failed) } else { Ok(()) }
    }
}
