//! The head of an old entry: all that it says but the words that it writes.

ghost use Rattle.std.specs.Prelude.{◌≡◌};
ghost use Rattle.ib_old_log.specs.OldHeads.{brought_head};

use crate::change::OldChange;
use ib_map::LoggedChange;

/// What an entry of version 1 says before its writes. `writes` is how many words of pages it writes.
#[derive(Clone, Copy, Debug, PartialEq, Eq)]
pub struct OldHead {
    /// The number of the session that wrote it, from 1 on.
    pub session: u32,
    /// Which of that session's changes it is, from 1 on.
    pub number: u32,
    /// The change of the map.
    pub change: OldChange,
    /// Whether it writes more pages than one.
    pub structural: bool,
    /// How many page words it writes.
    pub writes: usize,
}

impl OldHead {
    /// Its change as a history has it, with its key brought over.
    pub fn brought_over(&self) -> LoggedChange
        ensures { result ≡ brought_head self.now }
    {
        LoggedChange {
            session: self.session,
            number: self.number,
            change: self.change.brought_over(),
        }
    }
}
