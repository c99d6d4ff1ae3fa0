//! What a session knows of the log and of the pages. No value of these types is made: they are
//! ghosts of the rule.

use ib_logrec::Entry;
use std::collections::LinkedList;

/// From which place of the log on a latch has been held, and whether in SX or X.
#[derive(Clone, Copy)]
pub struct Since {
    /// The latch.
    pub latch: u32,
    /// It is held in SX or X.
    pub claims: bool,
    /// How many entries were seen at the first look at the log's end under this grant.
    pub place: u64,
}

/// A page word that was loaded.
#[derive(Clone, Copy)]
pub struct Loaded {
    /// Its place: the page's first place and the word's index.
    pub place: u32,
    /// The word.
    pub value: u64,
    /// The session has stored no word of an entry since.
    pub is_fresh: bool,
}

/// An append that is open: its entry, and what of it is stored.
pub struct OpenAppend {
    /// The entry that is written.
    pub entry: Entry,
    /// The places of the page words that are stored.
    pub places: LinkedList<u64>,
    /// The numbers of its own words that stand in the log already.
    pub words: LinkedList<u64>,
}

/// What a session knows of the log and of the pages.
pub struct Knowledge {
    /// The lists that were joined, until the load that tells which is the longer one.
    pub met: LinkedList<LinkedList<Entry>>,
    /// The entries seen.
    pub seen: LinkedList<Entry>,
    /// The session's own entries.
    pub own: LinkedList<Entry>,
    /// The numbers of entries that its loads of the log's end found.
    pub ends: LinkedList<u64>,
    /// Of the latches held, since when.
    pub since: LinkedList<Since>,
    /// The words loaded of the pages held.
    pub loaded: LinkedList<Loaded>,
    /// The append that is open.
    pub append: Option<OpenAppend>,
}
