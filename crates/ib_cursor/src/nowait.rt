//! The descent that does not wait.

ghost use Rattle.std.specs.Prelude.{◌≡◌, ◌+◌, ◌*◌, ◌≤◌, [], false, IfErr, IfOk, OnOk};
ghost use Rattle.ib_heap.specs.declared.TheConstants.{MOST_LEVEL};
ghost use Rattle.ib_rule.specs.Under.{under};
ghost use Rattle.ib_mtr.specs.Mtr.{IsStillMtr};
ghost use Rattle.ib_cursor.specs.Contention.{IsContended};
ghost use Rattle.ib_cursor.specs.Descent.{HasReached, MayDescend};
ghost use Rattle.ib_cursor.specs.OnPath.{IsSought};
ghost use Rattle.ib_cursor.specs.Refusals.{AreFewLooks, looks_of};

use crate::fault::NowaitFault;
use crate::nowait_descent::{try_down_in, try_root_in};
use crate::search::Sought;
use crate::try_latch::try_take;
use ib_latch::Sleep;
use ib_levels::{Latch, Level, Mode};
use ib_mtr::Mtr;
use ib_page::Path;
use ib_tree::Trees;

// Descends from a root to the leaf of a key as a reader, by tries. The leaf is held at the end, and not
// loaded: it is the last page of the path. Where a latch is refused, the log's end is looked at, and then
// the latches are given up. There are two looks at most for each latch that was had, and those of the
// refused try.
pub(crate) fn reach_leaf_nowait<L: Trees, S: Sleep>(
    mtr: &mut Mtr<'_, L, S>,
    sought: Sought,
) -> Result<Path, NowaitFault>
    requires may { MayDescend mtr.old.latches.now mtr.old.pass.now }
    requires sought { IsSought L.ROOTS sought.root sought.key }
    ensures still { IsStillMtr mtr.old mtr.new }
    ensures reached { IfOk result (λ path. under L.Law mtr.old.latches.now HasReached sought.root
        sought.key false path mtr.old.pass.now mtr.new.pass.now) }
    ensures none { OnOk result (mtr.new.pass.now.work ≡ []) }
    ensures twice { OnOk result (AreFewLooks 0 mtr.old.pass.now.view mtr.new.pass.now.view) }
    ensures contended { IfErr result (λ fault. under L.Law mtr.old.latches.now IsContended
        sought.root sought.key fault mtr.old.pass.now mtr.new.pass.now) }
    ensures vain { IfErr result (λ fault. AreFewLooks (looks_of fault) mtr.old.pass.now.view
        mtr.new.pass.now.view) }
    ensures few { mtr.new.pass.now.view.looks.count
        ≤ mtr.old.pass.now.view.looks.count + 2 * (MOST_LEVEL + 2) }
{
    match try_take(mtr, Latch::INDEX, Mode::S, Level::IndexTree) {
        Ok(()) => {}
        Err(fault) => return Err(fault),
    }
    let mut level = match try_root_in(mtr, sought, Mode::S) {
        Ok(level) => level,
        Err(fault) => {
            mtr.release_at(0);
            return Err(fault);
        }
    };
    let mut page = sought.root;
    let mut path = Path::new();
    while level > 0 {
        match try_down_in(mtr, sought, page, level, Mode::S) {
            Ok(child) => {
                path.push(page);
                page = child;
                level -= 1;
            }
            Err(fault) => {
                mtr.release_at(1);
                mtr.release_at(0);
                return Err(fault);
            }
        }
    }
    mtr.release_at(0);
    path.push(page);
    Ok(path)
}
