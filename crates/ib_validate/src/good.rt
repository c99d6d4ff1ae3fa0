//! Whether a page is a leaf or a node where it is met (btr0btr, `btr_validate_level`).

ghost use Rattle.std.specs.Prelude.{◌≡◌, ◌<◌, ◌≤◌, ◌↔◌, length, IsTrue};
ghost use Rattle.ib_map.specs.Keys.{rank};
ghost use Rattle.ib_map.specs.Pairs.{Rises};
ghost use Rattle.ib_page.specs.Form.{page_of};
ghost use Rattle.ib_page.specs.Image.{IsTreePage};
ghost use Rattle.ib_page.specs.Page.{rises};
ghost use Rattle.ib_walk.specs.Words.{state_of};
ghost use Rattle.ib_validate.specs.Positions.{end_of, is_good_page, starts};

use crate::pages::Page;
use crate::position::{PagePosition, begins_up_to, is_inside};
use crate::reading;
use ib_map::{PAGE_WORDS, is_below, is_same};

// Whether the page is one of a tree, of this height, with keys in this range: those of a node begin with the
// lowest one.
pub(crate) fn is_good(image: &Page<'_>, at: PagePosition) -> bool
    ensures good { result ≡ is_good_page (state_of (page_of image.now)) at.height (rank at.low) (end_of at.high) }
    ensures size { length image.now ≡ PAGE_WORDS }
{
    reading::is_tree(image)
        && reading::level(image) == at.height
        && is_within(image, at)
        && (at.height == 0 || starts_at_low(image, at))
}

// Whether the first key of a page is the lowest of its range.
fn starts_at_low(image: &Page<'_>, at: PagePosition) -> bool
    requires { IsTreePage image.now }
    ensures { result ≡ starts (state_of (page_of image.now)).records (rank at.low) }
{
    reading::count(image) > 0 && is_same(reading::record_at(image, 0).0, at.low)
}

// Whether the keys of a page lie in its range. They ascend, so the first one and the last one tell.
fn is_within(image: &Page<'_>, at: PagePosition) -> bool
    requires { IsTreePage image.now }
    ensures { result ≡ rises (rank at.low) (state_of (page_of image.now)).records (end_of at.high) }
{
    let count = reading::count(image);
    if count == 0 {
        return begins_up_to(at.low, at.high);
    }
    !is_below(reading::record_at(image, 0).0, at.low)
        && is_inside(reading::record_at(image, count - 1).0, at.high)
}
