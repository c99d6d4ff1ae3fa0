//! A page that is read where it lies, under its latch.

ghost use Rattle.std.specs.Prelude.{◌≡◌, ◌<◌, ◌≤◌, ◌^◌, refl, slice_get, IsSomeAnd};
ghost use Rattle.std.proofs.Common.{◌∙◌};
ghost use Rattle.ib_map.specs.Keys.{rank};
ghost use Rattle.ib_map.specs.Pairs.{value_at};
ghost use Rattle.ib_layout.specs.Places.{page_place};
ghost use Rattle.ib_logrec.specs.Log.{by_place, memory_after};
ghost use Rattle.ib_page.specs.Form.{page_of};
ghost use Rattle.ib_page.specs.Image.{IsFormed, IsTreePage, level_of, records_of};
ghost use Rattle.ib_heap.specs.declared.TheConstants.{MOST_LEVEL};
ghost use Rattle.ib_walk.specs.Search.{child_for};
ghost use Rattle.ib_walk.specs.Words.{image_of, state_of};
ghost use Rattle.ib_mtr.specs.Mtr.{IsStillMtr};
ghost use Rattle.ib_cursor.specs.Guesses.{leaf_standing};
ghost use Rattle.ib_cursor.specs.Reading.{CanRead, CanReadFrom, HasReadHeld, HasReadWords, read_more, read_none};
ghost use Rattle.ib_cursor.specs.Spaces.{pages_under, words_under};

use ib_latch::Sleep;
use ib_logrec::Law;
use ib_map::Key;
use ib_mtr::Mtr;
use ib_page::{KeyStanding, PageWords, child_in, get_in, is_tree_in, level_in, standing_in};

// A page of which the mini-transaction holds the latch, with a look at the log's end since, and the place
// of its first word. It is not loaded: its words are read one by one, where they lie.
#[derive(Drop)]
pub(crate) struct HeldPage<'m, 'a, L: Law, S: Sleep> {
    pub(crate) mtr: &'m mut Mtr<'a, L, S>,
    pub(crate) page: u32,
    pub(crate) start: usize,
}

impl<'m, 'a, L: Law, S: Sleep> PageWords for HeldPage<'m, 'a, L, S> {
    ghost words = { λ h. image_of (memory_after (by_place L.opening h.mtr.now.latches.now.sizes.pages) h.mtr.now.pass.now.view.memory.seen) h.page };

    ghost can_read = { λ h. CanReadFrom h.mtr.now.latches.now h.page h.start h.mtr.now.pass.now };

    ghost has_read = { λ h k. (k.mtr.ghost_name ≡ h.mtr.ghost_name) × (k.page ≡ h.page) × (k.start ≡ h.start) × (k.mtr.now.latches ≡ h.mtr.now.latches) × (k.mtr.now.pass.ghost_name ≡ h.mtr.now.pass.ghost_name) × HasReadWords h.mtr.now.pass.now k.mtr.now.pass.now };

    fn word(&mut self, index: usize) -> u64 {
        self.mtr.word_at(self.page, self.start, index)
    }

    ghost read_none = { λ h. (refl, refl, refl, refl, refl, read_none h.mtr.now.pass.now) };

    ghost read_more = { λ h k l one two. (two.0 ∙ one.0, two.1 ∙ one.1, two.2 ∙ one.2, two.3 ∙ one.3, two.4 ∙ one.4, read_more h.mtr.now.pass.now k.mtr.now.pass.now l.mtr.now.pass.now one.5 two.5) };
}

// Where a key stands on a page, over a source of its words, if that is a leaf.
fn leaf_standing_in<W: PageWords>(page: &mut W, key: Key) -> Option<KeyStanding>
    requires can { W.can_read page.old }
    requires formed { IsFormed (W.words page.old) }
    ensures standing { result ≡ leaf_standing key (state_of (page_of (W.words page.old))) }
    ensures same { W.words page.new ≡ W.words page.old }
    ensures can { W.can_read page.new }
    ensures read { W.has_read page.old page.new }
{
    if !is_tree_in(page) || level_in(page) > 0 {
        return None;
    }
    Some(standing_in(page, key))
}

impl<'m, 'a, L: Law, S: Sleep> HeldPage<'m, 'a, L, S> {
    // The level of the page, by one word of it.
    fn level(&mut self) -> u32
        requires can { CanReadFrom self.old.mtr.now.latches.now self.old.page self.old.start
            self.old.mtr.now.pass.now }
        requires tree { IsTreePage (words_under L.Law self.old.mtr.now.latches.now
            self.old.mtr.now.pass.now self.old.page) }
        ensures level { result ≡ level_of (words_under L.Law self.old.mtr.now.latches.now
            self.old.mtr.now.pass.now self.old.page) }
        ensures low { result ≤ MOST_LEVEL }
        ensures read { HasReadHeld self.old.mtr self.new.mtr }
    {
        level_in(self)
    }

    // The child of the key on the page, which is a node.
    fn child(&mut self, key: Key) -> u32
        requires can { CanReadFrom self.old.mtr.now.latches.now self.old.page self.old.start
            self.old.mtr.now.pass.now }
        requires tree { IsTreePage (words_under L.Law self.old.mtr.now.latches.now
            self.old.mtr.now.pass.now self.old.page) }
        requires first { IsSomeAnd (slice_get (records_of (words_under L.Law
            self.old.mtr.now.latches.now self.old.mtr.now.pass.now self.old.page)) 0)
            (λ r. rank r.0 ≤ rank key) }
        requires small { child_for key 0 (records_of (words_under L.Law
            self.old.mtr.now.latches.now self.old.mtr.now.pass.now self.old.page)) < 2 ^ 32 }
        ensures child { result ≡ child_for key 0 (records_of
            (words_under L.Law self.old.mtr.now.latches.now self.old.mtr.now.pass.now
            self.old.page)) }
        ensures read { HasReadHeld self.old.mtr self.new.mtr }
    {
        child_in(self, key) as u32
    }

    // The value of the key on the page, which is a leaf.
    fn value(&mut self, key: Key) -> Option<u64>
        requires can { CanReadFrom self.old.mtr.now.latches.now self.old.page self.old.start
            self.old.mtr.now.pass.now }
        requires tree { IsTreePage (words_under L.Law self.old.mtr.now.latches.now
            self.old.mtr.now.pass.now self.old.page) }
        ensures value { result ≡ value_at key (records_of (words_under L.Law
            self.old.mtr.now.latches.now self.old.mtr.now.pass.now self.old.page)) }
        ensures read { HasReadHeld self.old.mtr self.new.mtr }
    {
        get_in(self, key)
    }

    // Where the key stands on the page, if that is a leaf.
    pub(crate) fn leaf_standing(&mut self, key: Key) -> Option<KeyStanding>
        requires can { CanReadFrom self.old.mtr.now.latches.now self.old.page self.old.start
            self.old.mtr.now.pass.now }
        requires formed { IsFormed (words_under L.Law self.old.mtr.now.latches.now
            self.old.mtr.now.pass.now self.old.page) }
        ensures standing { result ≡ leaf_standing key (pages_under L.Law
            self.old.mtr.now.latches.now self.old.mtr.now.pass.now self.old.page) }
        ensures read { HasReadHeld self.old.mtr self.new.mtr }
    {
        leaf_standing_in(self, key)
    }
}

// Where the words of a page begin, which is asked once for all words that are read of it.
pub(crate) fn start_of<L: Law, S: Sleep>(mtr: &Mtr<'_, L, S>, page: u32) -> usize
    requires { page < mtr.now.latches.now.sizes.pages }
    ensures { result ≡ page_place mtr.now.latches.now.sizes page 0 }
{
    mtr.geometry().page_place(page, 0)
}

// The level of a page that is held, and is one of the tree, by one word of it.
pub(crate) fn level_of<L: Law, S: Sleep>(mtr: &mut Mtr<'_, L, S>, page: u32) -> u32
    requires can { CanRead mtr.old.latches.now page mtr.old.pass.now }
    requires tree { IsTreePage (words_under L.Law mtr.old.latches.now mtr.old.pass.now page) }
    ensures level { result ≡ level_of (words_under L.Law mtr.old.latches.now mtr.old.pass.now
        page) }
    ensures low { result ≤ MOST_LEVEL }
    ensures still { IsStillMtr mtr.old mtr.new }
    ensures read { HasReadWords mtr.old.pass.now mtr.new.pass.now }
{
    let start = start_of(mtr, page);
    let mut held = HeldPage { mtr, page, start };
    held.level()
}

// The child of the key on a node that is held: the node is not loaded, but searched where it lies.
pub(crate) fn child_of<L: Law, S: Sleep>(mtr: &mut Mtr<'_, L, S>, page: u32, key: Key) -> u32
    requires can { CanRead mtr.old.latches.now page mtr.old.pass.now }
    requires tree { IsTreePage (words_under L.Law mtr.old.latches.now mtr.old.pass.now page) }
    requires first { IsSomeAnd (slice_get (records_of (words_under L.Law mtr.old.latches.now
        mtr.old.pass.now page)) 0) (λ r. rank r.0 ≤ rank key) }
    requires small { child_for key 0 (records_of (words_under L.Law mtr.old.latches.now
        mtr.old.pass.now page)) < 2 ^ 32 }
    ensures child { result ≡ child_for key 0 (records_of (words_under L.Law mtr.old.latches.now
        mtr.old.pass.now page)) }
    ensures still { IsStillMtr mtr.old mtr.new }
    ensures read { HasReadWords mtr.old.pass.now mtr.new.pass.now }
{
    let start = start_of(mtr, page);
    let mut held = HeldPage { mtr, page, start };
    held.child(key)
}

// The value of the key on a leaf that is held, None where the key is not there: the leaf is not loaded, but
// searched where it lies.
pub(crate) fn value_of<L: Law, S: Sleep>(
    mtr: &mut Mtr<'_, L, S>,
    page: u32,
    key: Key,
) -> Option<u64>
    requires can { CanRead mtr.old.latches.now page mtr.old.pass.now }
    requires tree { IsTreePage (words_under L.Law mtr.old.latches.now mtr.old.pass.now page) }
    ensures value { result ≡ value_at key (records_of (words_under L.Law mtr.old.latches.now
        mtr.old.pass.now page)) }
    ensures still { IsStillMtr mtr.old mtr.new }
    ensures read { HasReadWords mtr.old.pass.now mtr.new.pass.now }
{
    let start = start_of(mtr, page);
    let mut held = HeldPage { mtr, page, start };
    held.value(key)
}
