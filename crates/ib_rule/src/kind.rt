//! The kinds of atomic step.

use ib_core::Event;

/// What an atomic step is. On the words of latches it is an event of the latch machine, or a look.
#[derive(Clone, Copy)]
pub enum StepKind {
    /// This event, whatever the word found is.
    Turn(Event),
    /// This event where the word found is the expected one, and else a look.
    Try(Event, u64),
    /// A load of the lock word by a session that has set the flag: the event `Again` where the word
    /// refuses the wish, and else a look.
    Recheck(u32),
    /// A look at the lock word.
    Look(u32),
    /// The session's number is stored as the writer of a latch.
    StoreWriter(u32),
    /// A new session is counted among those drawn.
    Enter,
    /// The space looks at the number of sessions drawn.
    Count,
    /// A session that was told what another had seen looks at the table.
    Meet,
    /// A page word is loaded, by its place.
    LoadPage(u32),
    /// The log's end is loaded.
    LoadEnd,
    /// A word of the log is loaded.
    LoadLog(u32),
    /// A word of a page is stored, at its place.
    StorePage(u32, u64),
    /// A word of the entry is stored in the log, by its number in the entry.
    StoreLog(u32, u64),
    /// The log's end is stored behind the entry: the append.
    StoreEnd,
}

/// What an atomic step does to its word.
#[derive(Clone, Copy)]
pub enum WordOp {
    /// Reads it.
    Load,
    /// Writes a word.
    Swap(u64),
    /// Adds to it.
    Add(u64),
    /// Takes off it.
    Sub(u64),
    /// Writes the second word, where it finds the first.
    Exchange(u64, u64),
}
