//! The first word of an entry: session, flags and number of writes.

ghost use Rattle.std.specs.Prelude.{◌≡◌, Some, None, if◌then◌else◌};
ghost use Rattle.ib_logrec.specs.Heads.{session_in, count_in, is_delete, is_structural, flags_of};
ghost use Rattle.ib_logrec.specs.Grammar.{is_first};

use crate::entry::{MOST_SESSIONS, MOST_WRITES};
use ib_map::Change;

// The flags of an entry's first word.
const INSERT: u64 = 1;

const DELETE: u64 = 2;

const STRUCTURAL_INSERT: u64 = 5;

const STRUCTURAL_DELETE: u64 = 6;

// What an entry's first word says.
#[derive(Clone, Copy)]
pub(crate) struct FirstWord {
    pub(crate) session: u32,
    pub(crate) deletes: bool,
    pub(crate) structural: bool,
    pub(crate) writes: usize,
}

// The flags that tell a change, and whether it is structural.
pub(crate) fn flags_of(change: Change, structural: bool) -> u64
    ensures { result ≡ flags_of change structural }
{
    match (change, structural) {
        (Change::Insert { .. }, false) => INSERT,
        (Change::Delete { .. }, false) => DELETE,
        (Change::Insert { .. }, true) => STRUCTURAL_INSERT,
        (Change::Delete { .. }, true) => STRUCTURAL_DELETE,
    }
}

// What the word says, where it is an entry's first one.
pub(crate) fn first_word(word: u64) -> Option<FirstWord>
    ensures { result ≡ (if is_first word
        then Some (record { session = session_in word; deletes = is_delete word; structural = is_structural word; writes = count_in word })
        else None) }
{
    let session = word >> 32;
    let flags = (word >> 16) % (1 << 16);
    let writes = word % (1 << 16);
    let deletes = flags == DELETE || flags == STRUCTURAL_DELETE;
    let structural = flags == STRUCTURAL_INSERT || flags == STRUCTURAL_DELETE;
    if session < 1 || session > u64::from(MOST_SESSIONS) {
        return None;
    }
    if !(flags == INSERT
        || flags == DELETE
        || flags == STRUCTURAL_INSERT
        || flags == STRUCTURAL_DELETE)
    {
        return None;
    }
    if writes < 1 || writes > MOST_WRITES as u64 {
        return None;
    }
    Some(FirstWord {
        session: session as u32,
        deletes,
        structural,
        writes: writes as usize,
    })
}
