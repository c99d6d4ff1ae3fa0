//! The head of an entry: all that an entry says but the words that it writes.

ghost use Rattle.std.specs.Prelude.{◌≡◌, ◌≤◌, ◌++◌, ℕ, List, Some, true, length, drop, SomeIff};
ghost use Rattle.ib_map.specs.Map.{key_of};
ghost use Rattle.ib_map.specs.declared.call.Change.{Change};
ghost use Rattle.ib_logrec.specs.declared.entry.Entry.{Entry};
ghost use Rattle.ib_logrec.specs.Heads.{first_word, head_in, head_of, head_words, logged_head, value_of};
ghost use Rattle.ib_logrec.specs.Grammar.{IsInGrammar, spells_head};

use crate::decode::spelled_head;
use crate::entry::{HEAD_WORDS, MOST_WRITES};
use crate::first_word::flags_of;
use crate::key_words::put_key;
use ib_map::{Change, Key, LoggedChange};

/// The head of an entry. `writes` is how many words of pages the entry writes.
#[derive(Clone, Copy, Debug, PartialEq, Eq)]
pub struct Head {
    pub session: u32,
    pub number: u32,
    pub change: Change,
    pub structural: bool,
    pub writes: usize,
}

impl Head {
    /// Its change, as a history has it.
    pub fn logged(&self) -> LoggedChange
        ensures { result ≡ logged_head self.now }
    {
        LoggedChange {
            session: self.session,
            number: self.number,
            change: self.change,
        }
    }

    /// The head that the first `HEAD_WORDS` words spell, as `write_into` writes them. None exactly where they
    /// spell none. Of an entry's words it is the entry's head, and `HEAD_WORDS + 2 * writes` words further the
    /// next entry begins.
    ///
    /// ```
    /// let next = match Head::read(&words[place..]) {
    ///     Some(head) => Some(place + HEAD_WORDS + 2 * head.writes),
    ///     None => None,
    /// };
    /// ```
    pub fn read(words: &[u64]) -> Option<Head>
        requires { HEAD_WORDS ≤ length words.now }
        ensures head { SomeIff result (spells_head words.now ≡ true) (head_in words.now) }
        ensures only { (pages : ℕ) (e : Entry) (rest : List ℕ) → IsInGrammar pages e
            → words.now ≡ head_words (head_of e) ++ rest → result ≡ Some (head_of e) }
    {
        match spelled_head(words, 0) {
            Ok(head) => Some(head),
            Err(_) => None,
        }
    }

    /// Writes the head's words to the front of `out`. What stands behind them stays.
    #[tactic(auto, unfolding(crate::specs::Heads::head_words))]
    pub fn write_into(&self, out: &mut [u64])
        requires few { self.now.writes ≤ MOST_WRITES }
        requires room { HEAD_WORDS ≤ length out.old }
        ensures { out.new ≡ head_words self.now ++ drop HEAD_WORDS out.old }
    {
        let (key, value) = key_and_value(self.change);
        out[0] = self.first_word();
        out[1] = u64::from(self.number);
        out[HEAD_WORDS - 1] = value;
        put_key(key, &mut out[2..]);
    }

    // Session, flags and number of writes.
    fn first_word(&self) -> u64
        requires { self.now.writes ≤ MOST_WRITES }
        ensures { result ≡ first_word self.now }
    {
        let flags = flags_of(self.change, self.structural);
        (u64::from(self.session) << 32) + (flags << 16) + self.writes as u64
    }
}

// A delete has no value, and 0 is written.
fn key_and_value(change: Change) -> (Key, u64)
    ensures key { result.0 ≡ key_of change }
    ensures value { result.1 ≡ value_of change }
{
    match change {
        Change::Insert { key, value } => (key, value),
        Change::Delete { key } => (key, 0),
    }
}
