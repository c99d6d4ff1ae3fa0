//! The stores of an open append: the words of its entry, in the pages and in the log, and the log's end.

ghost use Rattle.std.specs.Prelude.{◌≡◌, ◌+◌, ◌-◌, ◌*◌, ◌<◌, ◌≤◌, length, slice_index_or, true};
ghost use Rattle.ib_map.specs.declared.TheConstants.{PAGE_WORDS};
ghost use Rattle.ib_map.specs.Writes.{stored, word_place, writes_at};
ghost use Rattle.ib_logrec.specs.declared.entry.TheConstants.{HEAD_WORDS};
ghost use Rattle.ib_logrec.specs.Heads.{count_in, first_at};
ghost use Rattle.ib_logrec.specs.Log.{used};
ghost use Rattle.ib_logrec.specs.Words.{words_of_entry};
ghost use Rattle.ib_rule.specs.Pass.{IsFrom, with_view};
ghost use Rattle.ib_rule.specs.Stores.{AllStored, appending, storing_page, storing_word};
ghost use Rattle.ib_rule.specs.Writing.{MayStore, entry_of};

use crate::kind::StepKind;
use crate::pass::Pass;
use crate::space::Space;
use crate::step::store;
use ib_layout::END_PLACE;
use ib_logrec::{HEAD_WORDS, Law};
use ib_map::PAGE_WORDS;
use std::marker::Brand;

impl<L: Law> Space<L> {
    /// Stores a word of a page that the entry at the front of the pass's words writes. The first
    /// store opens the append of that entry, which is open until `store_end`.
    pub fn store_page_word(&self, pass: &mut Pass, page: u32, index: u32, value: u64)
        requires own { IsFrom self.now pass.old }
        requires page { page < self.now.sizes.pages }
        requires index { index < PAGE_WORDS }
        requires ready { MayStore self.now.sizes (L.lawful self.now.sizes.pages) pass.old }
        requires written { writes_at (word_place page index) (entry_of pass.old).writes ≡ true }
        requires value { value ≡ stored (entry_of pass.old).writes (word_place page index) 0 }
        ensures { pass.new ≡ with_view pass.old
            (storing_page (entry_of pass.old) (word_place page index) pass.old.view) }
    {
        let geometry = self.geometry;
        // For the proof: the places of page words fit 32 bits.
        let _ = geometry.pages();
        store::<L, Brand>(
            &self.table.shared,
            &mut pass.seat,
            pass.words.as_slice(),
            geometry.page_place(page, index),
            value,
            StepKind::StorePage(page * PAGE_WORDS as u32 + index, value),
        );
    }

    /// Stores a word of the entry in the log, by its number there: behind those of the entries seen.
    pub fn store_log_word(&self, pass: &mut Pass, number: u32, value: u64)
        requires own { IsFrom self.now pass.old }
        requires ready { MayStore self.now.sizes (L.lawful self.now.sizes.pages) pass.old }
        requires behind { used pass.old.view.memory.seen ≤ number }
        requires number { number - used pass.old.view.memory.seen
            < length (words_of_entry (entry_of pass.old)) }
        requires value { value ≡ slice_index_or (words_of_entry (entry_of pass.old))
            (number - used pass.old.view.memory.seen) 0 }
        ensures { pass.new ≡ with_view pass.old (storing_word (entry_of pass.old)
            (number - used pass.old.view.memory.seen) pass.old.view) }
    {
        store::<L, Brand>(
            &self.table.shared,
            &mut pass.seat,
            pass.words.as_slice(),
            pass.geometry.log_place(number),
            value,
            StepKind::StoreLog(number - pass.used, value),
        );
    }

    /// Stores the log's end behind the entry, of which all words are stored. That is the append: the
    /// entry is the last one of the log.
    pub fn store_end(&self, pass: &mut Pass)
        requires own { IsFrom self.now pass.old }
        requires ready { MayStore self.now.sizes (L.lawful self.now.sizes.pages) pass.old }
        requires stored { AllStored (entry_of pass.old) pass.old.view.memory.append }
        ensures { pass.new ≡ with_view pass.old (appending (entry_of pass.old) pass.old.view) }
    {
        // For the proof: the words of the log fit 32 bits.
        let _ = pass.geometry.log_words();
        let length = entry_length(pass.words.as_slice());
        let end = (u64::from(pass.place) + 1) * (1 << 32) + u64::from(pass.used + length);
        store::<L, Brand>(
            &self.table.shared,
            &mut pass.seat,
            pass.words.as_slice(),
            END_PLACE,
            end,
            StepKind::StoreEnd,
        );
        pass.place += 1;
        pass.used += length;
        pass.made += 1;
    }
}

// How many words an entry has: those of its head, and two for each of the writes that its first word
// counts.
fn entry_length(words: &[u64]) -> u32
    requires { 0 < length words.now }
    ensures { result ≡ HEAD_WORDS + 2 * count_in (first_at words.now) }
{
    HEAD_WORDS as u32 + 2 * (words[0] % (1 << 16)) as u32
}
