//! From words to the entry that they spell, or to their first fault.

ghost use Rattle.std.specs.Prelude.{◌≡◌, ◌+◌, ◌*◌, ◌^◌, ◌<◌, ◌≤◌, ◌==◌, ◌++◌, ℕ, List, not, None, Some, Ok, if◌then◌else◌, length, drop, slice_index, MatchResult, true, false, IfOk, OnOk, IfErr, OnErr};
ghost use Rattle.std.specs.List.{list_any};
ghost use Rattle.ib_map.specs.declared.TheConstants.{PAGE_WORDS};
ghost use Rattle.ib_map.specs.declared.call.Change.TheVariants.{Insert, Delete};
ghost use Rattle.ib_map.specs.Writes.{page_at, spans_pages, PlacesRise};
ghost use Rattle.ib_logrec.specs.declared.entry.Entry.{Entry};
ghost use Rattle.ib_logrec.specs.Heads.{head_of, head_in, first_at, count_in};
ghost use Rattle.ib_logrec.specs.Words.{words_of_entry, writes_in};
ghost use Rattle.ib_logrec.specs.Grammar.{IsInGrammar, StandsAt, HeadStandsAt, place_fault, spells_head, head_fault, writes_fault, fault_at, IsFault};

use crate::entry::{Entry, HEAD_WORDS};
use crate::fault::LogFault;
use crate::first_word::first_word;
use crate::head::Head;
use crate::key_words::{KEY_WORDS, key_at};
use crate::writes::Writes;
use ib_map::{Change, Key, PAGE_WORDS, Write};
use std::alloc::{AllocError, Global};

/// The entry that begins at `place` of a log's words, in a space of so many pages, and the place
/// behind it. A fault is the first one of the words there, from left to right.
pub fn decode_at(
    alloc: Global,
    words: &[u64],
    place: u32,
    pages: u32,
) -> Result<(Entry, u32), LogFault>
    requires place { place ≤ length words.now }
    requires few_words { length words.now < 2 ^ 32 }
    requires few_pages { pages * PAGE_WORDS ≤ 2 ^ 32 }
    // What is read is in the grammar, and the words there are its words.
    ensures found { IfOk result (λ found. StandsAt pages place found.1 words.now found.0) }
    // An entry in the grammar is read from its words, whatever stands behind them.
    ensures only { (e : Entry) (rest : List ℕ) → IsInGrammar pages e
        → drop place words.now ≡ words_of_entry e ++ rest
        → MatchResult result (λ found. found.0 ≡ e) (λ fault. fault ≡ LogFault.OutOfMemory) }
    // Which fault it is.
    ensures no_fault { OnOk result (fault_at pages place (drop place words.now) ≡ None) }
    ensures fault { IfErr result (IsFault (fault_at pages place (drop place words.now))) }
{
    let (head, next) = head_at(words, place, pages)?;
    let behind = &words[place as usize + HEAD_WORDS..];
    let writes = writes_of(alloc, head.writes, behind, pages)?;
    let entry = Entry {
        session: head.session,
        number: head.number,
        change: head.change,
        structural: head.structural,
        writes: Writes::from_vec(writes),
    };
    Ok((entry, next))
}

/// The head of the entry that begins at `place`, and the place behind the entry. The entry is tested
/// whole, as `decode_at` does, but its writes are not kept: so this takes no memory.
pub fn head_at(words: &[u64], place: u32, pages: u32) -> Result<(Head, u32), LogFault>
    requires place { place ≤ length words.now }
    requires few_words { length words.now < 2 ^ 32 }
    requires few_pages { pages * PAGE_WORDS ≤ 2 ^ 32 }
    ensures found { IfOk result (λ found. HeadStandsAt pages place found.1 words.now found.0) }
    ensures only { (e : Entry) (rest : List ℕ) → IsInGrammar pages e
        → drop place words.now ≡ words_of_entry e ++ rest
        → result ≡ Ok (record { 0 = head_of e; 1 = place + length (words_of_entry e) }) }
    ensures no_fault { OnOk result (fault_at pages place (drop place words.now) ≡ None) }
    ensures fault { IfErr result (λ fault. fault_at pages place (drop place words.now) ≡ Some fault) }
{
    let head = tested_head(&words[place as usize..], place, pages)?;
    let length = HEAD_WORDS + 2 * head.writes;
    Ok((head, place + length as u32))
}

// The head at the front of the words of an entry, which begin at a log's `place` and are tested whole.
fn tested_head(words: &[u64], place: u32, pages: u32) -> Result<Head, LogFault>
    requires { pages * PAGE_WORDS ≤ 2 ^ 32 }
    ensures head { IfOk result (λ head. head ≡ head_in words.now) }
    ensures no_fault { OnOk result (fault_at pages place words.now ≡ None) }
    ensures fault { IfErr result (λ fault. fault_at pages place words.now ≡ Some fault) }
{
    let head = head_of(words, place)?;
    let behind = &words[HEAD_WORDS..];
    test_places(head.writes, behind, place, pages)?;
    if head.structural != spans_pages(head.writes, behind) {
        return Err(bad_head(place, words[0]));
    }
    Ok(head)
}

// The head at the front of the words, which begin at a log's `place`, with as many words behind it as its
// writes have.
#[tactic(auto, unfolding(crate::specs::Grammar::head_fault))]
fn head_of(words: &[u64], place: u32) -> Result<Head, LogFault>
    ensures head { IfOk result (λ head. head ≡ head_in words.now) }
    ensures room { IfOk result (λ head. HEAD_WORDS + 2 * head.writes ≤ length words.now) }
    ensures no_fault { OnOk result (head_fault place words.now ≡ None) }
    ensures fault { IfErr result (λ fault. head_fault place words.now ≡ Some fault) }
{
    if words.len() < HEAD_WORDS {
        return Err(LogFault::Short { place });
    }
    let head = spelled_head(words, place)?;
    if words.len() - HEAD_WORDS < 2 * head.writes {
        return Err(LogFault::Short { place });
    }
    Ok(head)
}

// The head that the words at the front spell, whatever stands behind them.
#[tactic(auto, unfolding(crate::specs::Grammar::head_fault, crate::specs::Grammar::spells_head, crate::specs::Heads::head_in))]
pub(crate) fn spelled_head(words: &[u64], place: u32) -> Result<Head, LogFault>
    requires { HEAD_WORDS ≤ length words.now }
    ensures head { IfOk result (λ head. head ≡ head_in words.now) }
    ensures count { IfOk result (λ head. head.writes ≡ count_in (first_at words.now)) }
    ensures spelled { OnOk result (spells_head words.now ≡ true) }
    ensures none { OnErr result (spells_head words.now ≡ false) }
    ensures fault { IfErr result (λ fault. head_fault place words.now ≡ Some fault) }
{
    let number = words[1];
    let value = words[HEAD_WORDS - 1];
    let Some(first) = first_word(words[0]) else {
        return Err(bad_head(place, words[0]));
    };
    if number < 1 || number > u64::from(u32::MAX) {
        return Err(bad_head(place, number));
    }
    let Some(key) = key_at(&words[2..]) else {
        return Err(bad_head(place, words[HEAD_WORDS - 2]));
    };
    if first.deletes && value != 0 {
        return Err(bad_head(place, value));
    }
    Ok(Head {
        session: first.session,
        number: number as u32,
        change: change_of(first.deletes, key, value),
        structural: first.structural,
        writes: first.writes,
    })
}

// A word that is not one of a head.
fn bad_head(place: u32, word: u64) -> LogFault
    ensures { result ≡ LogFault.BadHead place word }
{
    LogFault::BadHead { place, word }
}

fn change_of(deletes: bool, key: Key, value: u64) -> Change
    ensures { result ≡ (if deletes then Delete key else Insert key value) }
{
    if deletes {
        Change::Delete { key }
    } else {
        Change::Insert { key, value }
    }
}

// Whether the places of the first `count` writes that the words spell ascend and lie on pages.
fn test_places(count: usize, words: &[u64], entry: u32, pages: u32) -> Result<(), LogFault>
    requires long { 2 * count ≤ length words.now }
    requires few_pages { pages * PAGE_WORDS ≤ 2 ^ 32 }
    ensures no_fault { OnOk result (place_fault pages entry 0 (writes_in count words.now) ≡ None) }
    ensures fault { IfErr result (λ fault. place_fault pages entry 0 (writes_in count words.now) ≡ Some fault) }
{
    let end = u64::from(pages) * PAGE_WORDS as u64;
    let mut low = 0;
    for i in 0..count {
        let place = words[2 * i];
        if place >= end {
            return Err(LogFault::Outside {
                place: entry,
                word: place,
            });
        }
        if place < low {
            return Err(LogFault::BadWrite {
                place: entry,
                word: place,
            });
        }
        low = place + 1;
    }
    Ok(())
}

// Whether the first `count` writes that the words spell lie on more than one page.
fn spans_pages(count: usize, words: &[u64]) -> bool
    requires { 2 * count ≤ length words.now }
    ensures { result ≡ spans_pages (writes_in count words.now) }
{
    for i in 1..count {
        if words[2 * i] / PAGE_WORDS as u64 != words[0] / PAGE_WORDS as u64 {
            return true;
        }
    }
    false
}

// The first `count` writes that the words spell, whose places lie on pages.
fn writes_of(
    alloc: Global,
    count: usize,
    words: &[u64],
    pages: u32,
) -> Result<Vec<Write>, AllocError>
    requires long { 2 * count ≤ length words.now }
    requires few_pages { pages * PAGE_WORDS ≤ 2 ^ 32 }
    requires rise { PlacesRise 0 (writes_in count words.now) (pages * PAGE_WORDS) }
    ensures { IfOk result (λ writes. writes.items ≡ writes_in count words.now) }
{
    let mut writes = Vec::with_capacity(alloc, count)?;
    for i in 0..count {
        writes.push(Write {
            place: words[2 * i] as u32,
            value: words[2 * i + 1],
        })?;
    }
    Ok(writes)
}
