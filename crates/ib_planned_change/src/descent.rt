//! The path of a key on the images of all pages.

ghost use Rattle.std.specs.Prelude.{◌≡◌, ◌<◌, ◌≤◌, ◌^◌, List, length, slice_get, IsSomeAnd};
ghost use Rattle.ib_map.specs.Keys.{rank};
ghost use Rattle.ib_logrec.specs.declared.entry.Entry.{Entry};
ghost use Rattle.ib_page.specs.Image.{IsTreePage, records_of};
ghost use Rattle.ib_walk.specs.Search.{child_for};
ghost use Rattle.ib_plans.specs.Agreement.{path_of};
ghost use Rattle.ib_planned_log.specs.LeafChange.{kept_pages};
ghost use Rattle.ib_planned_change.specs.Copies.{IsBehind, IsBehindSome};

use crate::copies::image_at;
use ib_map::Key;
use ib_page::{Image, Path};

// The page of the tree's root.
pub(crate) const ROOT: u32 = 1;

// The pages of a key, from the root down to its leaf (`btr_cur_search_to_nth_level`).
pub(crate) fn path_to(images: &[Image], key: Key) -> Path
    requires { IsBehindSome images.now }
    ensures { (log : List Entry) → IsBehind log images.now → result ≡ path_of (kept_pages (length images.now) log) key 1 }
{
    let mut path = Path::new();
    let mut page = ROOT;
    path.push(page);
    for _ in 0..image_at(images, ROOT).level() {
        page = child_of(image_at(images, page), key);
        path.push(page);
    }
    path
}

// The child of a node to which a key belongs.
fn child_of(image: &Image, key: Key) -> u32
    requires tree { IsTreePage image.now }
    requires first { IsSomeAnd (slice_get (records_of image.now) 0) (λ r. rank r.0 ≤ rank key) }
    requires small { child_for key 0 (records_of image.now) < 2 ^ 32 }
    ensures { result ≡ child_for key 0 (records_of image.now) }
{
    image.route_to(key).1 as u32
}
