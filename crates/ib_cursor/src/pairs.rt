//! The paths of two keys in two trees, claimed together.

ghost use Rattle.std.specs.Prelude.{◌≡◌, ◌≢◌, true, false};
ghost use Rattle.ib_rule.specs.Conditions.{HasGrantsLeft};
ghost use Rattle.ib_rule.specs.Under.{under};
ghost use Rattle.ib_rule.specs.Views.{is_watched};
ghost use Rattle.ib_mtr.specs.Mtr.{IsStillMtr};
ghost use Rattle.ib_cursor.specs.Descent.{MayDescend};
ghost use Rattle.ib_cursor.specs.OnPath.{IsSought};
ghost use Rattle.ib_cursor.specs.Pairs.{HasClaimedPair};
ghost use Rattle.ib_cursor.specs.Shapes.{is_claimed};

use crate::claim::{claim_index, facts_of_trees, read_path, take_path};
use crate::search::Sought;
use ib_latch::Parkers;
use ib_mtr::Mtr;
use ib_page::Path;
use ib_tree::Trees;
use std::sync::Wait;

/// Descends to the leaves of two keys in two trees, for an insert into both that may change their structure
/// (`btr_cur_search_to_nth_level` with `BTR_MODIFY_TREE`, for a clustered index and a secondary one): the index is claimed in SX
/// once, and both paths are read page by page in S, each page given up again at once. Then the pages of the first path
/// are taken in X and loaded, with the leaves beside its leaf, and then those of the other one. The session holds nothing
/// before, and the index is not watched; the keys' paths are answered.
///
/// ```
/// let first = Sought { root: 1, key };
/// let (path, other_path) = descend_pair_to_insert(rt, &mut mtr, first, Sought { root: 2, key: second });
/// ```
pub fn descend_pair_to_insert<L: Trees, R: Wait>(
    rt: &R,
    mtr: &mut Mtr<'_, L, Parkers>,
    first: Sought,
    other: Sought,
) -> (Path, Path)
    requires may { MayDescend mtr.old.latches.now mtr.old.pass.now }
    requires unwatched { is_watched 1 mtr.old.pass.now.view.memory.since ≡ false }
    requires room { HasGrantsLeft 128 mtr.old.pass.now.view }
    requires first { IsSought L.ROOTS first.root first.key }
    requires other { IsSought L.ROOTS other.root other.key }
    requires apart { other.root ≢ first.root }
    ensures still { IsStillMtr mtr.old mtr.new }
    ensures claimed { under L.Law mtr.old.latches.now HasClaimedPair first.root first.key result.0
        other.root other.key result.1 mtr.old.pass.now mtr.new.pass.now }
    ensures alone { is_claimed mtr.new.pass.now.view.memory.since ≡ true }
{
    facts_of_trees(mtr);
    claim_index(rt, mtr);
    let found = read_path(rt, mtr, first);
    let beside = read_path(rt, mtr, other);
    take_path(rt, mtr, &found);
    take_path(rt, mtr, &beside);
    (found.path, beside.path)
}
