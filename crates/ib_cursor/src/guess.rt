//! A guess at the leaf of a key: the page that it names is latched, and tested where it lies (btr_search_guess_on_hash).

ghost use Rattle.std.specs.Prelude.{◌≡◌, ◌≢◌, ◌<◌, []};
ghost use Rattle.ib_page.specs.Image.{IsFormed};
ghost use Rattle.ib_rule.specs.Conditions.{HasGrantLeft};
ghost use Rattle.ib_rule.specs.Under.{under};
ghost use Rattle.ib_mtr.specs.Mtr.{IsMtr, IsStillMtr};
ghost use Rattle.ib_cursor.specs.Guesses.{HasLatchedAlone, leaf_standing};
ghost use Rattle.ib_cursor.specs.Reading.{CanRead, HasReadWords};
ghost use Rattle.ib_cursor.specs.Spaces.{pages_under, words_under};

use crate::claim::facts_of_trees;
use crate::held_page::{HeldPage, start_of};
use crate::latch_page::latch_page;
use ib_latch::{Parkers, Sleep};
use ib_levels::Mode;
use ib_logrec::Law;
use ib_map::Key;
use ib_mtr::Mtr;
use ib_page::KeyStanding;
use ib_tree::Trees;
use std::sync::Wait;

/// Takes the latch of a page that a guess names, any page of the space but page 0, and looks at the log's end
/// once (`btr_search_guess_on_hash`; where that takes the latch by `buf_page_get_known_nowait`, this waits).
/// The page is not loaded: it may be read where it lies, and after all entries seen it is one of a tree, or
/// free. The memo has its grant alone at the end. The session holds nothing before.
pub fn latch_guess<L: Trees, R: Wait>(rt: &R, mtr: &mut Mtr<'_, L, Parkers>, page: u32, mode: Mode)
    requires mtr { IsMtr mtr.old.latches.now mtr.old.pass.now }
    requires memo { mtr.old.pass.now.memo ≡ [] }
    requires none { mtr.old.pass.now.work ≡ [] }
    requires room { HasGrantLeft mtr.old.pass.now.view }
    requires some { page ≢ 0 }
    requires inside { page < mtr.old.latches.now.sizes.pages }
    ensures still { IsStillMtr mtr.old mtr.new }
    ensures latched { under L.Law mtr.old.latches.now HasLatchedAlone page mode mtr.old.pass.now
        mtr.new.pass.now }
    ensures can { CanRead mtr.new.latches.now page mtr.new.pass.now }
{
    facts_of_trees(mtr);
    latch_page(rt, mtr, page, mode);
}

/// Where a key stands on a leaf that is held, by one search of the leaf where it lies
/// (`btr_search_check_guess`). None exactly where the page is no leaf of a tree: it is free, or a node. It is
/// asked of a page that is one of a tree, or free, where its latch is held, with a look at the log's end
/// since. No page is loaded.
pub fn key_standing<L: Law, S: Sleep>(
    mtr: &mut Mtr<'_, L, S>,
    page: u32,
    key: Key,
) -> Option<KeyStanding>
    requires can { CanRead mtr.old.latches.now page mtr.old.pass.now }
    requires formed { IsFormed (words_under L.Law mtr.old.latches.now mtr.old.pass.now page) }
    ensures standing { result ≡ leaf_standing key (pages_under L.Law mtr.old.latches.now
        mtr.old.pass.now page) }
    ensures still { IsStillMtr mtr.old mtr.new }
    ensures read { HasReadWords mtr.old.pass.now mtr.new.pass.now }
{
    let start = start_of(mtr, page);
    let mut held = HeldPage { mtr, page, start };
    held.leaf_standing(key)
}
