//! The words of an entry, laid out from a work set.

ghost use Rattle.std.specs.Prelude.{◌≡◌, ◌+◌, ◌*◌, ◌^◌, ◌<◌, ◌≤◌, ◌++◌, None, IfSome, drop, length, slice_index};
ghost use mathlib.Core.List.{IsPrefix};
ghost use Rattle.ib_page.specs.Writes.{writes_of};
ghost use Rattle.ib_logrec.specs.Words.{words_of_entry};
ghost use Rattle.ib_rule.specs.declared.view.Role.TheVariants.{Session};
ghost use Rattle.ib_rule.specs.Writing.{entry_of};
ghost use Rattle.ib_frames.specs.Appends.{IsLaidOut, entry_by, entry_for};

use ib_logrec::{HEAD_WORDS, Head, MOST_WRITES};
use ib_map::{Change, Write};
use ib_page::WorkSet;
use ib_rule::Pass;

// Writes the words of the entry by which this session makes the change, from what the work set
// changes, to the front of `out`. It answers how many writes the entry has.
#[tactic(auto, unfolding(ib_logrec::specs::Words::words_of_entry))]
fn write_entry(session: u32, number: u32, change: Change, work: &WorkSet, out: &mut [u64]) -> usize
    requires few { length (writes_of work.now) ≤ MOST_WRITES }
    requires room { HEAD_WORDS + 2 * length (writes_of work.now) ≤ length out.old }
    ensures words { out.new ≡ words_of_entry (entry_by session number change work.now)
        ++ drop (HEAD_WORDS + 2 * length (writes_of work.now)) out.old }
    ensures count { result ≡ length (writes_of work.now) }
{
    let written = work.write_into(&mut out[HEAD_WORDS..]);
    let head = Head {
        session,
        number,
        change,
        structural: written.structural,
        writes: written.count,
    };
    head.write_into(out);
    written.count
}

/// Lays out the pass's next entry at the front of its words: this change, with what the work set changes. It
/// answers how many writes the entry has. What others append changes no word of it, so that it may stand there
/// before the log latch is taken; `append_laid` stores it.
pub fn lay_out(pass: &mut Pass, change: Change, work: &WorkSet) -> usize
    requires closed { pass.old.view.memory.append ≡ None }
    requires few { length (writes_of work.now) ≤ MOST_WRITES }
    requires number { length pass.old.view.memory.own + 1 < 2 ^ 32 }
    ensures same { pass.new ≡ record pass.old { words = pass.new.words } }
    ensures session { pass.old.view.role ≡ Session pass.old.number }
    ensures spelled { IsPrefix (words_of_entry (entry_for pass.old change work.now))
        pass.new.words }
    ensures entry { entry_of pass.new ≡ entry_for pass.old change work.now }
    ensures count { result ≡ length (writes_of work.now) }
{
    let session = pass.number();
    let number = pass.made() + 1;
    write_entry(session, number, change, work, pass.entry_words())
}

// The entry stands at the front of the pass's words: it was laid out there before, with so many writes, or is now.
pub(crate) fn lay_out_once(
    pass: &mut Pass,
    change: Change,
    work: &WorkSet,
    laid: Option<usize>,
) -> usize
    requires closed { pass.old.view.memory.append ≡ None }
    requires few { length (writes_of work.now) ≤ MOST_WRITES }
    requires number { length pass.old.view.memory.own + 1 < 2 ^ 32 }
    requires laid { IfSome laid (IsLaidOut pass.old change work.now) }
    ensures same { pass.new ≡ record pass.old { words = pass.new.words } }
    ensures session { pass.old.view.role ≡ Session pass.old.number }
    ensures spelled { IsPrefix (words_of_entry (entry_for pass.old change work.now))
        pass.new.words }
    ensures entry { entry_of pass.new ≡ entry_for pass.old change work.now }
    ensures count { result ≡ length (writes_of work.now) }
{
    // For the proof: the session's number is that of its role.
    let _ = pass.number();
    match laid {
        Some(writes) => writes,
        None => lay_out(pass, change, work),
    }
}

// A write of the entry at the front of the words.
pub(crate) fn write_at(words: &[u64], i: usize) -> Write
    requires in_range { HEAD_WORDS + 2 * i + 1 < length words.now }
    requires place { slice_index words.now (HEAD_WORDS + 2 * i) < 2 ^ 32 }
    ensures place { result.place ≡ slice_index words.now (HEAD_WORDS + 2 * i) }
    ensures value { result.value ≡ slice_index words.now (HEAD_WORDS + (2 * i + 1)) }
{
    Write {
        place: words[HEAD_WORDS + 2 * i] as u32,
        value: words[HEAD_WORDS + (2 * i + 1)],
    }
}
