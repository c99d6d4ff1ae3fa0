//! Pages that are loaded under their latches, and changed, and looks at the log's end.

ghost use Rattle.std.specs.Prelude.{◌≡◌, ◌<◌, ◌+◌, Some, None, IsSome, length, true};
ghost use Rattle.std.specs.Borrow.{sem};
ghost use Rattle.ib_map.specs.declared.TheConstants.{PAGE_WORDS};
ghost use Rattle.ib_map.specs.Writes.{word_place};
ghost use Rattle.ib_layout.specs.Places.{page_place};
ghost use Rattle.ib_core.specs.Sessions.{holdings, x_grants};
ghost use Rattle.ib_logrec.specs.Log.{by_place, memory_after, used};
ghost use Rattle.ib_page.specs.declared.work.TheConstants.{MOST_WORK_PAGES};
ghost use Rattle.ib_page.specs.Work.{changed_of};
ghost use Rattle.ib_rule.specs.Pass.{with_view};
ghost use Rattle.ib_rule.specs.Under.{under};
ghost use Rattle.ib_rule.specs.Views.{is_watched, loading};
ghost use Rattle.ib_mtr.specs.Lending.{LendsImage};
ghost use Rattle.ib_mtr.specs.Loads.{HasLoadedPage, HasLooked};
ghost use Rattle.ib_mtr.specs.Mtr.{IsMtr, IsStillMtr};

use crate::mtr::Mtr;
use ib_frames::{LogEnd, read_page};
use ib_latch::Sleep;
use ib_logrec::Law;
use ib_map::PAGE_WORDS;
use ib_page::Image;

impl<'a, L: Law, S: Sleep> Mtr<'a, L, S> {
    /// Loads a page into the work set, of which the session holds the latch in some mode, and which is
    /// not there yet (`buf_page_get_gen`, then `mtr_t::memo_push`): its words, and then a look at the log's end. It
    /// is the page after all entries that the session has seen then. The work set has at most
    /// `MOST_WORK_PAGES` pages.
    ///
    /// ```
    /// mtr.s_latch(rt, Latch::page(page), Level::TreeNode);
    /// mtr.load(page);
    /// ```
    pub fn load(&mut self, page: u32)
        requires mtr { IsMtr self.old.latches.now self.old.pass.now }
        requires page { page < self.old.latches.now.sizes.pages }
        requires held { 0 < holdings (page + 2) self.old.pass.now.view.session }
        requires absent { changed_of page self.old.pass.now.work ≡ None }
        requires few { length self.old.pass.now.work < MOST_WORK_PAGES }
        ensures still { IsStillMtr self.old self.new }
        ensures loaded { under L.Law self.old.latches.now HasLoadedPage page self.old.pass.now
            self.new.pass.now }
    {
        let mut room = self.pass.leave_work();
        let image = room.work.read_in(page);
        read_page(self.latches.space(), self.pass, page, image);
        // For the proof: an image has as many words as a page.
        let _ = image.word(0);
        self.pass.resume_work(room);
    }

    /// A word of a page where it lies, of which the session holds the latch in some mode, with a look at
    /// the log's end since: it is that of the page after all entries seen. The page is not in the work
    /// set by it: a search reads a node in place, of whose latch it has the page by the word.
    ///
    /// ```
    /// mtr.s_latch(rt, Latch::page(page), Level::TreeNode);
    /// mtr.log_end();
    /// let word = mtr.word(page, 9);
    /// ```
    pub fn word(&mut self, page: u32, index: usize) -> u64
        requires mtr { IsMtr self.old.latches.now self.old.pass.now }
        requires page { page < self.old.latches.now.sizes.pages }
        requires index { index < PAGE_WORDS }
        requires held { 0 < holdings (page + 2) self.old.pass.now.view.session }
        requires watched { is_watched (page + 2) self.old.pass.now.view.memory.since ≡ true }
        ensures still { IsStillMtr self.old self.new }
        ensures word { result
            ≡ memory_after (by_place L.opening self.old.latches.now.sizes.pages)
            self.old.pass.now.view.memory.seen (word_place page index) }
        ensures loaded { self.new.pass.now ≡ with_view self.old.pass.now
            (loading (word_place page index) result self.old.pass.now.view) }
    {
        let start = self.geometry().page_place(page, 0);
        self.word_at(page, start, index)
    }

    /// `word`, of a page whose first word stands at `start` of the table, for who reads several words of one
    /// page and asks `page_place` of the geometry once, as a search does.
    ///
    /// ```
    /// let start = mtr.geometry().page_place(page, 0);
    /// let (count, level) = (mtr.word_at(page, start, 9), mtr.word_at(page, start, 10));
    /// ```
    #[inline(always)]
    pub fn word_at(&mut self, page: u32, start: usize, index: usize) -> u64
        requires mtr { IsMtr self.old.latches.now self.old.pass.now }
        requires page { page < self.old.latches.now.sizes.pages }
        requires start { start ≡ page_place self.old.latches.now.sizes page 0 }
        requires index { index < PAGE_WORDS }
        requires held { 0 < holdings (page + 2) self.old.pass.now.view.session }
        requires watched { is_watched (page + 2) self.old.pass.now.view.memory.since ≡ true }
        ensures still { IsStillMtr self.old self.new }
        ensures word { result
            ≡ memory_after (by_place L.opening self.old.latches.now.sizes.pages)
            self.old.pass.now.view.memory.seen (word_place page index) }
        ensures loaded { self.new.pass.now ≡ with_view self.old.pass.now
            (loading (word_place page index) result self.old.pass.now.view) }
    {
        self.latches
            .space()
            .load_page_word_at(self.pass, page, start, index as u32)
    }

    /// The changed image of a page, lent to be changed: the page is loaded, and the session owns X on
    /// its latch. It is a mini-transaction again afterwards (`edit_law`).
    ///
    /// ```
    /// let image = mtr.edit(page);
    /// let count = image.word(9);
    /// image.set_word(9, count.saturating_add(1));
    /// ```
    pub fn edit(&mut self, page: u32) -> &mut Image
        requires mtr { IsMtr self.old.latches.now self.old.pass.now }
        requires held { 0 < x_grants (page + 2) self.old.pass.now.view.session }
        requires loaded { IsSome (changed_of page self.old.pass.now.work) }
        ensures* lends { sem 𝓛 (LendsImage L.row S.row L.Law S.Sleep self.entry page result) }
        ensures image { changed_of page self.old.pass.now.work ≡ Some result.now }
    {
        self.pass.work_mut().edit(page)
    }

    /// Looks at the log's end: all of the log is seen then. Memo and work set stay as they are.
    ///
    /// ```
    /// let end = mtr.log_end();
    /// assert!(rt; end.entries == mtr.place());
    /// ```
    pub fn log_end(&mut self) -> LogEnd
        requires mtr { IsMtr self.old.latches.now self.old.pass.now }
        ensures still { IsStillMtr self.old self.new }
        ensures entries { result.entries ≡ length self.new.pass.now.view.memory.seen }
        ensures words { result.words ≡ used self.new.pass.now.view.memory.seen }
        ensures looked { under L.Law self.old.latches.now HasLooked self.old.pass.now
            self.new.pass.now }
    {
        ib_frames::log_end(self.latches.space(), self.pass)
    }
}
