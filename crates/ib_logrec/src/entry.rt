//! A log entry: one commit of a mini-transaction (mtr0mtr).

ghost use Rattle.std.specs.Prelude.{◌≡◌};
ghost use Rattle.ib_logrec.specs.Heads.{head_of};
ghost use Rattle.ib_logrec.specs.Log.{logged};

use crate::head::Head;
use crate::key_words::KEY_WORDS;
use crate::writes::Writes;
use ib_map::{Change, LoggedChange};

/// How many words stand before an entry's writes: session, flags and number of writes in the first one,
/// then the change's number, the two words of its key, and its value.
pub const HEAD_WORDS: usize = 5;

const _: () = prove!(HEAD_WORDS == 3 + KEY_WORDS);

/// The most writes of an entry.
pub const MOST_WRITES: usize = 4095;

const _: () = prove!(MOST_WRITES == 4095);

/// The greatest session number.
pub const MOST_SESSIONS: u32 = 1024;

const _: () = prove!(MOST_SESSIONS == 1024);

/// What one commit of a mini-transaction appends to the log: whose change it is, which of that session's
/// changes, counted from 1, and the words of pages that differ afterwards. `structural` says that the
/// writes lie on more than one page.
#[derive(Debug, Drop)]
pub struct Entry {
    pub session: u32,
    pub number: u32,
    pub change: Change,
    pub structural: bool,
    pub writes: Writes,
}

impl Entry {
    /// All that it says but its writes.
    pub fn head(&self) -> Head
        ensures { result ≡ head_of self.now }
    {
        Head {
            session: self.session,
            number: self.number,
            change: self.change,
            structural: self.structural,
            writes: self.writes.as_slice().len(),
        }
    }

    /// Its change, as a history has it.
    pub fn logged(&self) -> LoggedChange
        ensures { result ≡ logged self.now }
    {
        self.head().logged()
    }
}
