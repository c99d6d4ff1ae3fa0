//! How the program ends, as its exit status.

ghost use Rattle.std.specs.Prelude.{◌≡◌};
ghost use Rattle.ib_io.specs.Status.{status_number};

/// How the program ended.
#[derive(Clone, Copy, Debug, PartialEq, Eq)]
pub enum Status {
    /// The input was read to its end, and the whole output was written.
    Done = 0,
    /// The words are no form of the program; the usage line was written.
    Usage = 1,
    /// A line of the input is outside the grammar; its number and kind were written.
    Script = 2,
    /// The source failed; nothing was written.
    ReadFault = 3,
    /// The sink failed; a front of what another status writes was written.
    WriteFault = 4,
    /// Memory ran out; nothing was written.
    Memory = 5,
    /// More than `INPUT_BYTES` bytes were read; one line was written.
    TooLarge = 6,
    /// The log that was read is refused; its fault was written.
    BadLog = 7,
}

impl Status {
    /// The process's exit status, 0 to 7.
    pub fn number(self) -> u8
        ensures { result ≡ status_number self }
    {
        self as u8
    }
}
