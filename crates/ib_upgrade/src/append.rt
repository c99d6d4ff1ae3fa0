//! An entry behind the words of a log.

ghost use Rattle.std.specs.Prelude.{◌≡◌, ◌+◌, ◌*◌, ◌≤◌, ◌++◌, length, drop, OnOk};
ghost use Rattle.ib_logrec.specs.Words.{words_of_entry};
ghost use Rattle.ib_page.specs.Writes.{writes_of};
ghost use Rattle.ib_upgrade.specs.Upgrades.{entry_of};

use ib_logrec::{HEAD_WORDS, Head, MOST_WRITES};
use ib_map::LoggedChange;
use ib_page::WorkSet;
use std::alloc::AllocError;

// How many words an entry has at most.
pub(crate) const MOST_ENTRY_WORDS: usize = HEAD_WORDS + 2 * MOST_WRITES;

// Appends the words of the entry of a change, which writes the words in which a work set differs. `room` is room for them.
pub(crate) fn append_entry(
    log: &mut Vec<u64>,
    room: &mut [u64],
    logged: LoggedChange,
    work: &WorkSet,
) -> Result<(), AllocError>
    requires few { length (writes_of work.now) ≤ MOST_WRITES }
    requires room { MOST_ENTRY_WORDS ≤ length room.old }
    ensures { OnOk result (log.new.items ≡ log.old.items ++ words_of_entry (entry_of logged work.now)) }
{
    let count = write_entry(room, logged, work);
    log.extend_from_slice(&room[..count])?;
    Ok(())
}

// Writes the entry's words to the front of `out`, and answers how many they are.
#[tactic(auto, unfolding(ib_logrec::specs::Words::words_of_entry))]
fn write_entry(out: &mut [u64], logged: LoggedChange, work: &WorkSet) -> usize
    requires few { length (writes_of work.now) ≤ MOST_WRITES }
    requires room { MOST_ENTRY_WORDS ≤ length out.old }
    ensures words { out.new ≡ words_of_entry (entry_of logged work.now) ++ drop (HEAD_WORDS + 2 * length (writes_of work.now)) out.old }
    ensures count { result ≡ HEAD_WORDS + 2 * length (writes_of work.now) }
{
    let written = work.write_into(&mut out[HEAD_WORDS..]);
    let head = Head {
        session: logged.session,
        number: logged.number,
        change: logged.change,
        structural: written.structural,
        writes: written.count,
    };
    head.write_into(out);
    HEAD_WORDS + 2 * written.count
}
