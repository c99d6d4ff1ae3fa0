//! From words to the old entry that they spell, or to their first fault.

ghost use Rattle.std.specs.Prelude.{◌≡◌, ◌+◌, ◌*◌, ◌^◌, ◌<◌, ◌≤◌, ◌++◌, ℕ, None, Some, Ok, if◌then◌else◌, length, drop, IfOk, OnOk, IfErr};
ghost use Rattle.ib_logrec.specs.Heads.{first_at};
ghost use Rattle.ib_logrec.specs.Words.{writes_in};
ghost use Rattle.ib_old_log.specs.OldHeads.{old_head_in};
ghost use Rattle.ib_old_log.specs.OldEntries.{spans_old_pages};
ghost use Rattle.ib_old_log.specs.OldGrammar.{OldHeadStandsAt, old_place_fault, old_head_fault, old_fault_at};
ghost use Rattle.ib_old_log.specs.declared.change.OldChange.TheVariants.{Insert, Delete};

use crate::change::OldChange;
use crate::first_word::old_first_word;
use crate::head::OldHead;
use crate::{OLD_HEAD_WORDS, OLD_PAGE_WORDS};
use ib_logrec::LogFault;

/// The head of the old entry that begins at `place` of a log's words, in a space of so many pages, and the place behind the
/// entry. The entry is tested whole, and its writes are not kept: so this takes no memory. A fault is the first one of the
/// words there, from left to right.
pub fn old_head_at(words: &[u64], place: u32, pages: u32) -> Result<(OldHead, u32), LogFault>
    requires place { place ≤ length words.now }
    requires few_words { length words.now < 2 ^ 32 }
    // What is read is the head of an entry in the grammar, and the words there are its words.
    ensures found { IfOk result (λ found. OldHeadStandsAt pages place found.1 words.now found.0) }
    // Which fault it is.
    ensures no_fault { OnOk result (old_fault_at pages place (drop place words.now) ≡ None) }
    ensures fault { IfErr result (λ fault. old_fault_at pages place (drop place words.now) ≡ Some fault) }
{
    let head = tested_head(&words[place as usize..], place, pages)?;
    let length = OLD_HEAD_WORDS + 2 * head.writes;
    Ok((head, place + length as u32))
}

// The head at the front of the words of an entry, which begin at a log's `place` and are tested whole.
fn tested_head(words: &[u64], place: u32, pages: u32) -> Result<OldHead, LogFault>
    ensures head { IfOk result (λ head. head ≡ old_head_in words.now) }
    ensures no_fault { OnOk result (old_fault_at pages place words.now ≡ None) }
    ensures fault { IfErr result (λ fault. old_fault_at pages place words.now ≡ Some fault) }
{
    let head = head_of(words, place)?;
    let behind = &words[OLD_HEAD_WORDS..];
    test_places(head.writes, behind, place, pages)?;
    if head.structural != spans_pages(head.writes, behind) {
        return Err(bad_head(place, words[0]));
    }
    Ok(head)
}

// The head at the front of the words, which begin at a log's `place`.
#[tactic(auto, unfolding(crate::specs::OldGrammar::old_head_fault, crate::specs::OldHeads::old_head_in))]
fn head_of(words: &[u64], place: u32) -> Result<OldHead, LogFault>
    ensures head { IfOk result (λ head. head ≡ old_head_in words.now) }
    ensures room { IfOk result (λ head. OLD_HEAD_WORDS + 2 * head.writes ≤ length words.now) }
    ensures no_fault { OnOk result (old_head_fault place words.now ≡ None) }
    ensures fault { IfErr result (λ fault. old_head_fault place words.now ≡ Some fault) }
{
    if words.len() < OLD_HEAD_WORDS {
        return Err(LogFault::Short { place });
    }
    let number = words[1];
    let value = words[3];
    let Some(first) = old_first_word(words[0]) else {
        return Err(bad_head(place, words[0]));
    };
    if number < 1 || number > u64::from(u32::MAX) {
        return Err(bad_head(place, number));
    }
    if first.deletes && value != 0 {
        return Err(bad_head(place, value));
    }
    if words.len() - OLD_HEAD_WORDS < 2 * first.writes {
        return Err(LogFault::Short { place });
    }
    Ok(OldHead {
        session: first.session,
        number: number as u32,
        change: change_of(first.deletes, words[2], value),
        structural: first.structural,
        writes: first.writes,
    })
}

// A word that is not one of a head.
fn bad_head(place: u32, word: u64) -> LogFault
    ensures { result ≡ LogFault.BadHead place word }
{
    LogFault::BadHead { place, word }
}

fn change_of(deletes: bool, key: u64, value: u64) -> OldChange
    ensures { result ≡ (if deletes then Delete key else Insert key value) }
{
    if deletes {
        OldChange::Delete { key }
    } else {
        OldChange::Insert { key, value }
    }
}

// Whether the places of the first `count` writes that the words spell ascend and lie on pages.
fn test_places(count: usize, words: &[u64], entry: u32, pages: u32) -> Result<(), LogFault>
    requires { 2 * count ≤ length words.now }
    ensures no_fault { OnOk result (old_place_fault pages entry 0 (writes_in count words.now) ≡ None) }
    ensures fault { IfErr result (λ fault. old_place_fault pages entry 0 (writes_in count words.now) ≡ Some fault) }
{
    let end = u64::from(pages) * OLD_PAGE_WORDS as u64;
    let mut low = 0;
    for i in 0..count {
        let place = words[2 * i];
        if place >= end {
            return Err(LogFault::Outside {
                place: entry,
                word: place,
            });
        }
        if place < low {
            return Err(LogFault::BadWrite {
                place: entry,
                word: place,
            });
        }
        low = place + 1;
    }
    Ok(())
}

// Whether the first `count` writes that the words spell lie on more than one page.
fn spans_pages(count: usize, words: &[u64]) -> bool
    requires { 2 * count ≤ length words.now }
    ensures { result ≡ spans_old_pages (writes_in count words.now) }
{
    for i in 1..count {
        if words[2 * i] / OLD_PAGE_WORDS as u64 != words[0] / OLD_PAGE_WORDS as u64 {
            return true;
        }
    }
    false
}
