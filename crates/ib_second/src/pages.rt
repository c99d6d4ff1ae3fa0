//! Pages that a change of both trees takes and looks at, after the claim of the index.

ghost use Rattle.std.specs.Prelude.{◌≡◌, ◌+◌, ◌<◌, ◌≤◌, ◌∷◌, ◌++◌, List, ℕ, None, true, false, length, map};
ghost use Rattle.std.specs.List.{AllByRecursion};
ghost use Rattle.ib_map.specs.Keys.{MapKey};
ghost use Rattle.ib_core.specs.Holders.{CanWish};
ghost use Rattle.ib_levels.specs.declared.level.Level.{Level as LevelValue};
ghost use Rattle.ib_levels.specs.declared.level.Level.TheVariants.{Space};
ghost use Rattle.ib_levels.specs.Level.{may_follow};
ghost use Rattle.ib_page.specs.Work.{changed_of};
ghost use Rattle.ib_page.specs.declared.work.TheConstants.{MOST_WORK_PAGES};
ghost use Rattle.ib_rule.specs.Conditions.{HasGrantLeft, HasGrantsLeft, MayGrow};
ghost use Rattle.ib_tree.specs.PageLists.{AreOnce, is_listed};
ghost use Rattle.ib_mtr.specs.Mtr.{IsMtr, IsStillMtr};
ghost use Rattle.ib_rule.specs.Views.{is_watched};
ghost use Rattle.ib_cursor.specs.Descent.{MayDescend};
ghost use Rattle.ib_second.specs.PairComes.{HasComeToPair};
ghost use Rattle.ib_cursor.specs.Claims.{claim_grant};
ghost use Rattle.ib_cursor.specs.Grants.{Grant};
ghost use Rattle.ib_index.specs.Grows.{held_grant, pages_held, tree_pages};
ghost use Rattle.ib_second.specs.Stands.{HasTakenAt, HasTakenEach, StandsOnPair};

use ib_cursor::{Sought, descend_pair_to_insert, read, take};
use ib_latch::Parkers;
use ib_levels::{Latch, Level, Mode};
use ib_map::Key;
use ib_mtr::Mtr;
use ib_page::Path;
use ib_pair_change::PairPaths;
use ib_pair_law::PairLaw;
use std::sync::Wait;

/// A mini-transaction on the pages of a pair of trees.
pub(crate) type PairWork<'a> = Mtr<'a, PairLaw, Parkers>;

/// The pages of the roots of both trees (`dict_index_t::page`).
pub(crate) const FIRST_ROOT: u32 = 1;

pub(crate) const SECOND_ROOT: u32 = 2;

// Claims the paths of the key in the first tree and of its pair's second key in the second, with the leaves beside their leaves.
pub(crate) fn claim_paths<R: Wait>(
    rt: &R,
    mtr: &mut PairWork<'_>,
    key: Key,
    second: Key,
) -> PairPaths
    requires may { MayDescend mtr.old.latches.now mtr.old.pass.now }
    requires unwatched { is_watched 1 mtr.old.pass.now.view.memory.since ≡ false }
    requires room { HasGrantsLeft 128 mtr.old.pass.now.view }
    ensures still { IsStillMtr mtr.old mtr.new }
    ensures come { HasComeToPair mtr.old.latches.now.sizes key result.first second result.second mtr.old.pass.now mtr.new.pass.now }
{
    // For the proof: a space has a number of pages of which the laws speak.
    let _ = mtr.geometry().pages();
    let first = Sought {
        root: FIRST_ROOT,
        key,
    };
    let other = Sought {
        root: SECOND_ROOT,
        key: second,
    };
    let (first, second) = descend_pair_to_insert(rt, mtr, first, other);
    PairPaths { first, second }
}

// Takes a page in X at a level behind those that are held, and loads it. Nothing of others is seen meanwhile.
pub(crate) fn take_at<R: Wait>(rt: &R, mtr: &mut PairWork<'_>, page: u32, level: Level)
    requires mtr { IsMtr mtr.old.latches.now mtr.old.pass.now }
    requires page { page < mtr.old.latches.now.sizes.pages }
    requires grows { MayGrow mtr.old.pass.now.view }
    requires may { CanWish (page + 2) level mtr.old.pass.now.view.session }
    requires absent { changed_of page mtr.old.pass.now.work ≡ None }
    requires few { length mtr.old.pass.now.work < MOST_WORK_PAGES }
    ensures still { IsStillMtr mtr.old mtr.new }
    ensures taken { (key : MapKey) (path : List ℕ) (other_key : MapKey) (other_path : List ℕ) (held : List (ℕ × LevelValue))
        → StandsOnPair mtr.old.latches.now.sizes key path other_key other_path held mtr.old.pass.now
        → is_listed (pages_held held) page ≡ false
        → HasTakenAt mtr.old.latches.now.sizes key path other_key other_path held page level
        mtr.old.pass.now mtr.new.pass.now }
{
    // For the proof: a space has a number of pages of which the laws speak.
    let _ = mtr.geometry().pages();
    take(rt, mtr, Latch::page(page), Mode::X, level);
    read(mtr, page);
}

// Takes these pages, each another one than those that are held, one after the other.
pub(crate) fn take_each<R: Wait>(rt: &R, mtr: &mut PairWork<'_>, pages: &Path, level: Level)
    requires mtr { IsMtr mtr.old.latches.now mtr.old.pass.now }
    requires room { HasGrantsLeft 16 mtr.old.pass.now.view }
    requires again { may_follow level level ≡ true }
    requires ready { (key : MapKey) × (path : List ℕ) × (other_key : MapKey) × (other_path : List ℕ) × (held : List (ℕ × LevelValue))
        × StandsOnPair mtr.old.latches.now.sizes key path other_key other_path held mtr.old.pass.now
        × AreOnce (pages_held held ++ pages.now) mtr.old.latches.now.sizes.pages
        × AllByRecursion (λ (g : Grant). may_follow g.level level ≡ true) (claim_grant ∷ map held_grant held)
        × (length held ≤ 23) }
    ensures still { IsStillMtr mtr.old mtr.new }
    ensures taken { (key : MapKey) (path : List ℕ) (other_key : MapKey) (other_path : List ℕ) (held : List (ℕ × LevelValue))
        → StandsOnPair mtr.old.latches.now.sizes key path other_key other_path held mtr.old.pass.now
        → AreOnce (pages_held held ++ pages.now) mtr.old.latches.now.sizes.pages
        → HasTakenEach mtr.old.latches.now.sizes key path other_key other_path held pages.now level
        mtr.old.pass.now mtr.new.pass.now }
{
    let pages = pages.pages();
    let mut at = 0;
    while at < pages.len() {
        take_at(rt, mtr, pages[at], level);
        at += 1;
    }
}

// Takes page 0 behind the pages of both trees, once for both.
pub(crate) fn take_space<R: Wait>(rt: &R, mtr: &mut PairWork<'_>)
    requires mtr { IsMtr mtr.old.latches.now mtr.old.pass.now }
    requires room { HasGrantLeft mtr.old.pass.now.view }
    requires ready { (key : MapKey) × (path : List ℕ) × (other_key : MapKey) × (other_path : List ℕ) × (held : List ℕ)
        × StandsOnPair mtr.old.latches.now.sizes key path other_key other_path (tree_pages held) mtr.old.pass.now
        × (is_listed held 0 ≡ false) × (length held ≤ 23) }
    ensures still { IsStillMtr mtr.old mtr.new }
    ensures taken { (key : MapKey) (path : List ℕ) (other_key : MapKey) (other_path held : List ℕ)
        → StandsOnPair mtr.old.latches.now.sizes key path other_key other_path (tree_pages held) mtr.old.pass.now
        → is_listed held 0 ≡ false
        → HasTakenAt mtr.old.latches.now.sizes key path other_key other_path (tree_pages held) 0 Space mtr.old.pass.now mtr.new.pass.now }
{
    // For the proof: a space has a number of pages of which the laws speak.
    let _ = mtr.geometry().pages();
    take_at(rt, mtr, 0, Level::Space);
}
