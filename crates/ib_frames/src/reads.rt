//! A page read whole, and a look at the log's end.

ghost use Rattle.std.specs.Prelude.{◌≡◌, ℕ, ◌+◌, ◌<◌, length, slice_index};
ghost use Rattle.ib_map.specs.declared.TheConstants.{PAGE_WORDS};
ghost use Rattle.ib_map.specs.Writes.{word_place};
ghost use Rattle.ib_core.specs.declared.phase.Phase.TheVariants.{Free};
ghost use Rattle.ib_core.specs.Sessions.{holdings};
ghost use Rattle.ib_logrec.specs.Log.{by_place, memory_after, used};
ghost use Rattle.ib_rule.specs.Pass.{IsFrom, IsOf, with_view};
ghost use Rattle.ib_rule.specs.Stores.{IsLook};
ghost use Rattle.ib_rule.specs.Views.{reaching};
ghost use Rattle.ib_frames.specs.Reads.{AreRight, with_page_loaded};

use ib_logrec::Law;
use ib_page::Image;
use ib_rule::{Pass, Space};

/// Reads a page that the session holds in some mode, in the middle of nothing, as buf0buf gives a frame under its latch: its
/// words, which go straight into `out`, and then the log's end. The words are those of the page after
/// all entries that the session has seen then. Others may have appended in between, but could write
/// no word of this page. Where the session has changed the page, its own entries count as well.
pub fn read_page<L: Law>(space: &Space<L>, pass: &mut Pass, page: u32, out: &mut Image)
    requires own { IsOf space.now pass.old }
    requires page { page < space.now.sizes.pages }
    requires free { pass.old.view.session.phase ≡ Free }
    requires held { 0 < holdings (page + 2) pass.old.view.session }
    ensures words { (index : ℕ) → index < PAGE_WORDS → slice_index out.new index
        ≡ memory_after (by_place L.opening space.now.sizes.pages) pass.new.view.memory.seen
        (word_place page index) }
    ensures view { pass.new ≡ with_view pass.old (reaching pass.new.view.memory.seen
        (with_page_loaded page out.new pass.old.view)) }
    ensures looked { IsLook space.now.sizes (L.lawful space.now.sizes.pages) pass.old.view
        pass.new.view.memory.seen }
    ensures right { AreRight (by_place L.opening space.now.sizes.pages) pass.new.view }
{
    space.load_page(pass, page, out);
    space.load_end(pass);
}

/// The log's end.
#[derive(Clone, Copy, Debug, PartialEq, Eq)]
pub struct LogEnd {
    /// How many entries the log has.
    pub entries: u32,
    /// How many words they have.
    pub words: u32,
}

/// Looks at the log's end, by one load, as log0log's `lsn` is read. The session has seen all of the
/// log then. Of what others appended since its last look nothing conflicts with a latch that it has
/// held since then, and what it loaded of the pages that it holds is right still.
pub fn log_end<L: Law>(space: &Space<L>, pass: &mut Pass) -> LogEnd
    requires own { IsFrom space.now pass.old }
    requires free { pass.old.view.session.phase ≡ Free }
    ensures entries { result.entries ≡ length pass.new.view.memory.seen }
    ensures words { result.words ≡ used pass.new.view.memory.seen }
    ensures view { pass.new
        ≡ with_view pass.old (reaching pass.new.view.memory.seen pass.old.view) }
    ensures looked { IsLook space.now.sizes (L.lawful space.now.sizes.pages) pass.old.view
        pass.new.view.memory.seen }
    ensures right { AreRight (by_place L.opening space.now.sizes.pages) pass.new.view }
{
    let _ = space.load_end(pass);
    LogEnd {
        entries: pass.place(),
        words: pass.used(),
    }
}
