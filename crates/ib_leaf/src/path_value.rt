//! The value of a key in the leaf at the end of a path.

ghost use Rattle.std.specs.Prelude.{◌≡◌, ◌≢◌, []};
ghost use Rattle.ib_map.specs.Pairs.{value_at};
ghost use Rattle.ib_plans.specs.Agreement.{HasTreePages, last_of, memory_in};
ghost use Rattle.ib_mtr.specs.Mtr.{IsMtr};

use ib_latch::Sleep;
use ib_logrec::Law;
use ib_map::Key;
use ib_mtr::Mtr;
use ib_page::Path;

/// The value of the key in the last page of the path, whose pages are loaded, or none where that leaf does not have the
/// key (`page_cur_search` at the end of `btr_cur_search_to_nth_level`).
///
/// ```
/// let path = descend_to_insert(rt, &mut mtr, ROOT, key);
/// is_new = value_in(&mtr, &path, key).is_none();
/// ```
pub fn value_in<L: Law, S: Sleep>(mtr: &Mtr<'_, L, S>, path: &Path, key: Key) -> Option<u64>
    requires mtr { IsMtr mtr.now.latches.now mtr.now.pass.now }
    requires some { path.now ≢ [] }
    requires trees { HasTreePages path.now mtr.now.pass.now.work }
    ensures { result ≡ value_at key (memory_in mtr.now.pass.now.work (last_of path.now)).records }
{
    let leaf = path.last().unwrap();
    let image = mtr.image(leaf).unwrap();
    image.get(key)
}
