//! The first word of an old entry: session, flags and number of writes.

ghost use Rattle.std.specs.Prelude.{◌≡◌, Some, None, if◌then◌else◌};
ghost use Rattle.ib_logrec.specs.Heads.{session_in, count_in, is_delete, is_structural};
ghost use Rattle.ib_old_log.specs.OldGrammar.{is_old_first};

use crate::MOST_OLD_WRITES;
use ib_logrec::MOST_SESSIONS;

// What the first word of an entry says.
#[derive(Clone, Copy)]
pub(crate) struct OldFirstWord {
    pub(crate) session: u32,
    pub(crate) deletes: bool,
    pub(crate) structural: bool,
    pub(crate) writes: usize,
}

// What the word says, where it is an entry's first one.
pub(crate) fn old_first_word(word: u64) -> Option<OldFirstWord>
    ensures { result ≡ (if is_old_first word
        then Some (record { session = session_in word; deletes = is_delete word; structural = is_structural word; writes = count_in word })
        else None) }
{
    let session = word >> 32;
    let flags = (word >> 16) % (1 << 16);
    let writes = word % (1 << 16);
    if session < 1 || session > u64::from(MOST_SESSIONS) {
        return None;
    }
    if !(flags == 1 || flags == 2 || flags == 5 || flags == 6) {
        return None;
    }
    if writes < 1 || writes > MOST_OLD_WRITES as u64 {
        return None;
    }
    Some(OldFirstWord {
        session: session as u32,
        deletes: flags == 2 || flags == 6,
        structural: flags == 5 || flags == 6,
        writes: writes as usize,
    })
}
