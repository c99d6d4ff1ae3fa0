//! Positions of a cursor: stored, and restored by the modify clock of their page.

ghost use Rattle.std.specs.Prelude.{◌≡◌, ◌≤◌, ◌<◌, ◌+◌, ℕ, List, [], Some, length};
ghost use Rattle.ib_page.specs.Image.{IsFormed, clock_of};
ghost use Rattle.ib_page.specs.Work.{changed_of};
ghost use Rattle.ib_logrec.specs.Log.{by_place};
ghost use Rattle.ib_rule.specs.Conditions.{HasGrantLeft, HasGrantsLeft};
ghost use Rattle.ib_rule.specs.Under.{under};
ghost use Rattle.ib_mtr.specs.Mtr.{IsMtr, IsStillMtr};
ghost use Rattle.ib_cursor.specs.Descent.{MayDescend};
ghost use Rattle.ib_cursor.specs.Positions.{HasLoadedAlone, HasRestored, IsPosition, LoadedLeaf};
ghost use Rattle.ib_cursor.specs.Spaces.{pages_under};

use crate::claim::facts_of_trees;
use crate::descent::descend;
use crate::latch_page::{read, take};
use crate::search::Search;
use ib_latch::{Parkers, Sleep};
use ib_levels::{Latch, Level, Mode};
use ib_logrec::Law;
use ib_map::Key;
use ib_mtr::Mtr;
use ib_page::Path;
use ib_tree::{Clocks, Trees};
use std::sync::Wait;

/// Where a cursor stood (`btr_pcur_t`): a leaf, as it was at some place of the log.
#[derive(Clone, Copy, Debug, PartialEq, Eq)]
pub struct Position {
    /// The leaf.
    pub page: u32,
    /// Its modify clock.
    pub clock: u64,
    /// The place: how many entries were seen.
    pub place: u32,
}

/// How a position was restored.
#[derive(Drop)]
pub enum Restored {
    /// The leaf was not written since: it is held and loaded.
    Same,
    /// It was: the key's leaf is held and loaded in its stead.
    Moved {
        /// The path of the key, from the root on. The leaf is its last page.
        path: Path,
    },
}

// The modify clock of a page that is loaded.
fn clock_of<L: Law, S: Sleep>(mtr: &Mtr<'_, L, S>, page: u32) -> u64
    requires mtr { IsMtr mtr.now.latches.now mtr.now.pass.now }
    requires loaded { (image : List ℕ) × (changed_of page mtr.now.pass.now.work ≡ Some image)
        × IsFormed image }
    ensures { (image : List ℕ) → changed_of page mtr.now.pass.now.work ≡ Some image
        → result ≡ clock_of image }
{
    let image = mtr.image(page).unwrap();
    image.clock()
}

/// Stores where a cursor stands (`btr_pcur_store_position`): on a leaf that is loaded, and is after all entries
/// seen as it was read.
pub fn store<L: Trees, S: Sleep>(mtr: &Mtr<'_, L, S>, leaf: u32) -> Position
    requires mtr { IsMtr mtr.now.latches.now mtr.now.pass.now }
    requires loaded { under L.Law mtr.now.latches.now LoadedLeaf L.ROOTS leaf mtr.now.pass.now }
    ensures page { result.page ≡ leaf }
    ensures clock { result.clock ≡ (pages_under L.Law mtr.now.latches.now mtr.now.pass.now leaf).clock }
    ensures place { result.place ≡ length mtr.now.pass.now.view.memory.seen }
    ensures position { under L.Law mtr.now.latches.now (λ _. IsPosition) L.ROOTS
        mtr.now.pass.now.view.memory.seen result }
{
    facts_of_trees(mtr);
    Position {
        page: leaf,
        clock: clock_of(mtr, leaf),
        place: mtr.place(),
    }
}

// Takes a page in S, where nothing is held, and loads it.
fn load_alone<L: Law, R: Wait>(rt: &R, mtr: &mut Mtr<'_, L, Parkers>, page: u32)
    requires mtr { IsMtr mtr.old.latches.now mtr.old.pass.now }
    requires memo { mtr.old.pass.now.memo ≡ [] }
    requires none { mtr.old.pass.now.work ≡ [] }
    requires room { HasGrantLeft mtr.old.pass.now.view }
    requires inside { page < mtr.old.latches.now.sizes.pages }
    ensures still { IsStillMtr mtr.old mtr.new }
    ensures loaded { under L.Law mtr.old.latches.now HasLoadedAlone page mtr.old.pass.now
        mtr.new.pass.now }
{
    // For the proof: a space has a number of pages of which the laws speak.
    let _ = mtr.geometry().pages();
    take(rt, mtr, Latch::page(page), Mode::S, Level::TreeNode);
    read(mtr, page);
}

/// Restores a position (`btr_pcur_restore_position`): its page is taken in S and loaded. `Same` exactly where
/// the page's modify clock is the stored one, after all entries seen by then: no entry from the stored place on
/// writes the page, which is held and loaded as the leaf that it was. Else the page is given up, and the key's leaf is
/// descended to as a reader, in the first tree. The session holds nothing before.
pub fn restore<L: Clocks, R: Wait>(
    rt: &R,
    mtr: &mut Mtr<'_, L, Parkers>,
    position: &Position,
    key: Key,
) -> Restored
    requires may { MayDescend mtr.old.latches.now mtr.old.pass.now }
    requires room { HasGrantsLeft 65 mtr.old.pass.now.view }
    requires root { 1 ≤ L.ROOTS }
    requires position { under L.Law mtr.old.latches.now (λ _. IsPosition) L.ROOTS
        mtr.old.pass.now.view.memory.seen position.now }
    ensures still { IsStillMtr mtr.old mtr.new }
    ensures restored { (stored : under L.Law mtr.old.latches.now (λ _. IsPosition) L.ROOTS
        mtr.old.pass.now.view.memory.seen position.now)
        → under L.Law mtr.old.latches.now HasRestored L.ROOTS position.now stored.range key result
        mtr.old.pass.now mtr.new.pass.now }
    // A descent takes 9 at most.
    ensures few { mtr.new.pass.now.view.grants.s ≤ mtr.old.pass.now.view.grants.s + 10 }
{
    facts_of_trees(mtr);
    // For the proof: a page's clock counts the entries that write it.
    L::clocks_law();
    load_alone(rt, mtr, position.page);
    let clock = clock_of(mtr, position.page);
    if clock == position.clock {
        return Restored::Same;
    }
    mtr.release_at(0);
    Restored::Moved {
        path: descend(rt, mtr, Search::Find, key),
    }
}
