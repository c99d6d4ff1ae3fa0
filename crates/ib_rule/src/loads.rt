//! The loads of page words, of words of the log, and of the log's end.

ghost use Rattle.std.specs.Prelude.{◌≡◌, ◌+◌, ◌*◌, ◌^◌, ◌<◌, ◌≤◌, length, slice_index_or, true};
ghost use Rattle.std.specs.List.{AllByRecursion};
ghost use Rattle.ib_map.specs.declared.TheConstants.{PAGE_WORDS};
ghost use Rattle.ib_map.specs.Space.{has_pages};
ghost use Rattle.ib_map.specs.Writes.{word_place};
ghost use Rattle.ib_layout.specs.Places.{page_place, words_of};
ghost use Rattle.ib_core.specs.declared.phase.Phase.TheVariants.{Free};
ghost use Rattle.ib_core.specs.Sessions.{holdings};
ghost use Rattle.ib_logrec.specs.Log.{by_place, log_words, memory_after, used};
ghost use Rattle.ib_rule.specs.declared.loads.TheConstants.{LINE_WORDS};
ghost use Rattle.ib_rule.specs.declared.view.View.{View};
ghost use Rattle.ib_rule.specs.Loads.{AreSettled, HasLoaded, MayLoad, with_page_loaded};
ghost use Rattle.ib_rule.specs.Memory.{LoadedFact};
ghost use Rattle.ib_rule.specs.Pass.{IsFrom, IsOf, with_view};
ghost use Rattle.ib_rule.specs.Stores.{IsLook};
ghost use Rattle.ib_rule.specs.Views.{KnowsHeld, is_watched, loading, reaching};

use crate::kind::{StepKind, WordOp};
use crate::looks::Grants;
use crate::pass::Pass;
use crate::space::Space;
use crate::step::{Board, act};
use crate::view::View;
use atomic_table::Seat;
use ib_layout::END_PLACE;
use ib_logrec::Law;
use ib_map::PAGE_WORDS;
use ib_page::Image;
use std::marker::Brand;

// How many words a line of the processor's cache has: a page is loaded line by line, since a loop
// over a page's words takes more steps to count than to load.
const LINE_WORDS: usize = 8;

impl<L: Law> Space<L> {
    /// Loads a word of a page that the session holds in some mode, in the middle of nothing: a next
    /// writer waits until it owns X. While it holds the page, and until
    /// it stores a word of an entry itself, the word stays that of the page. Where it has looked at the
    /// log's end since it took the latch, the word is that of the page after all entries seen: what the
    /// log has beyond them wrote no word of the page.
    pub fn load_page_word(&self, pass: &mut Pass, page: u32, index: u32) -> u64
        requires own { IsOf self.now pass.old }
        requires page { page < self.now.sizes.pages }
        requires index { index < PAGE_WORDS }
        requires free { pass.old.view.session.phase ≡ Free }
        requires held { 0 < holdings (page + 2) pass.old.view.session }
        ensures view { pass.new ≡ with_view pass.old
            (loading (word_place page index) result pass.old.view) }
        ensures settled { is_watched (page + 2) pass.old.view.memory.since ≡ true
            → result ≡ memory_after (by_place L.opening self.now.sizes.pages)
            pass.old.view.memory.seen (word_place page index) }
    {
        let start = self.geometry.page_place(page, 0);
        self.load_page_word_at(pass, page, start, index)
    }

    /// `load_page_word`, of a page whose first word stands at `start` of the table, for who reads several
    /// words of one page and asks `page_place` of the geometry once.
    #[inline(always)]
    pub fn load_page_word_at(&self, pass: &mut Pass, page: u32, start: usize, index: u32) -> u64
        requires own { IsOf self.now pass.old }
        requires page { page < self.now.sizes.pages }
        requires start { start ≡ page_place self.now.sizes page 0 }
        requires index { index < PAGE_WORDS }
        requires free { pass.old.view.session.phase ≡ Free }
        requires held { 0 < holdings (page + 2) pass.old.view.session }
        ensures view { pass.new ≡ with_view pass.old
            (loading (word_place page index) result pass.old.view) }
        ensures settled { is_watched (page + 2) pass.old.view.memory.since ≡ true
            → result ≡ memory_after (by_place L.opening self.now.sizes.pages)
            pass.old.view.memory.seen (word_place page index) }
    {
        // For the proof: the places of page words fit 32 bits, and are words of the table.
        let _ = self.geometry.page_place(page, index);
        act::<L, Brand>(
            &self.table.shared,
            &mut pass.seat,
            start + index as usize,
            WordOp::Load,
            StepKind::LoadPage(page * PAGE_WORDS as u32 + index),
        )
    }

    /// Loads all words of a page that the session holds in some mode into `out`, one load each. What
    /// `load_page_word` says of its word is so of each of them.
    pub fn load_page(&self, pass: &mut Pass, page: u32, out: &mut Image)
        requires own { IsOf self.now pass.old }
        requires page { page < self.now.sizes.pages }
        requires free { pass.old.view.session.phase ≡ Free }
        requires held { 0 < holdings (page + 2) pass.old.view.session }
        ensures view { pass.new
            ≡ with_view pass.old (with_page_loaded page out.new pass.old.view) }
        ensures settled { AreSettled (by_place L.opening self.now.sizes.pages) page out.new
            PAGE_WORDS pass.old.view }
    {
        // For the proof: the places of page words fit 32 bits.
        let _ = self.geometry.pages();
        let first = self.geometry.page_place(page, 0);
        load_words(&self.table.shared, &mut pass.seat, page, first, out);
    }

    /// Loads a word of the log, of those that the entries seen have.
    pub fn load_log_word(&self, pass: &mut Pass, number: u32) -> u64
        requires own { IsFrom self.now pass.old }
        requires free { pass.old.view.session.phase ≡ Free }
        requires below { number < used pass.old.view.memory.seen }
        ensures same { pass.new ≡ pass.old }
        ensures word { result ≡ slice_index_or (log_words pass.old.view.memory.seen) number 0 }
    {
        act::<L, Brand>(
            &self.table.shared,
            &mut pass.seat,
            pass.geometry.log_place(number),
            WordOp::Load,
            StepKind::LoadLog(number),
        )
    }

    /// Loads the log's end: all of the log is seen, and each latch that is held has a since from then
    /// on. The entries first seen conflict with no latch that had one, so what was loaded of the pages
    /// held is right still. It answers the word: 2^32 for each entry, and one for each of their words.
    pub fn load_end(&self, pass: &mut Pass) -> u64
        requires own { IsFrom self.now pass.old }
        requires free { pass.old.view.session.phase ≡ Free }
        ensures view { pass.new
            ≡ with_view pass.old (reaching pass.new.view.memory.seen pass.old.view) }
        ensures looked { IsLook self.now.sizes (L.lawful self.now.sizes.pages) pass.old.view
            pass.new.view.memory.seen }
        ensures loaded { AllByRecursion (LoadedFact (by_place L.opening self.now.sizes.pages)
            pass.old.view.session pass.new.view.memory.seen) pass.old.view.memory.loaded }
        ensures end { result
            ≡ length pass.new.view.memory.seen * 2 ^ 32 + used pass.new.view.memory.seen }
    {
        // For the proof: the words of the log fit 32 bits.
        let _ = pass.geometry.log_words();
        let end = act::<L, Brand>(
            &self.table.shared,
            &mut pass.seat,
            END_PLACE,
            WordOp::Load,
            StepKind::LoadEnd,
        );
        pass.place = (end / (1 << 32)) as u32;
        pass.used = (end % (1 << 32)) as u32;
        let Grants { s, sx, x } = pass.grants;
        pass.looked_after = s + sx + x;
        end
    }
}

// Loads the words of a page, which stand in the table from `first` on.
fn load_words<L: Law>(
    shared: &Board<L>,
    seat: &mut Seat<(), View>,
    page: u32,
    first: usize,
    out: &mut Image,
)
    requires table { seat.old.table_id ≡ shared.now.table_id }
    requires words { shared.now.table_id.words ≡ words_of shared.now.key }
    requires pages { has_pages shared.now.key.pages ≡ true }
    requires page { page < shared.now.key.pages }
    requires first { first ≡ page_place shared.now.key page 0 }
    requires may { MayLoad page seat.old.me.0 }
    ensures own { (seat.new.table_id ≡ seat.old.table_id) × (seat.new.id ≡ seat.old.id) }
    ensures view { seat.new.me.0 ≡ with_page_loaded page out.new seat.old.me.0 }
    ensures slots { seat.new.me.1 ≡ seat.old.me.1 }
    ensures known { KnowsHeld seat.new.me.0 }
    ensures settled { AreSettled (by_place L.opening shared.now.key.pages) page out.new
        PAGE_WORDS seat.old.me.0 }
{
    for line in 0..PAGE_WORDS / LINE_WORDS {
        load_line(shared, seat, page, first, line * LINE_WORDS, out);
    }
}

// Loads the words of a page from an index on, as many as a line has.
fn load_line<L: Law>(
    shared: &Board<L>,
    seat: &mut Seat<(), View>,
    page: u32,
    first: usize,
    from: usize,
    out: &mut Image,
)
    requires table { seat.old.table_id ≡ shared.now.table_id }
    requires words { shared.now.table_id.words ≡ words_of shared.now.key }
    requires pages { has_pages shared.now.key.pages ≡ true }
    requires page { page < shared.now.key.pages }
    requires first { first ≡ page_place shared.now.key page 0 }
    requires from { from + LINE_WORDS ≤ PAGE_WORDS }
    requires may { MayLoad page seat.old.me.0 }
    ensures own { (seat.new.table_id ≡ seat.old.table_id) × (seat.new.id ≡ seat.old.id) }
    ensures loaded { (start : View)
        → HasLoaded (by_place L.opening shared.now.key.pages) page start out.old from
        seat.old.me.0
        → HasLoaded (by_place L.opening shared.now.key.pages) page start out.new
        (from + LINE_WORDS) seat.new.me.0 }
    ensures slots { seat.new.me.1 ≡ seat.old.me.1 }
    ensures known { KnowsHeld seat.new.me.0 }
{
    for offset in 0..LINE_WORDS {
        let index = from + offset;
        let word = act::<L, Brand>(
            shared,
            seat,
            first + index,
            WordOp::Load,
            StepKind::LoadPage(page * PAGE_WORDS as u32 + index as u32),
        );
        out.set_word(index, word);
    }
}
