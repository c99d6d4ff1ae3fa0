//! What both plans do with a page of a work set.

ghost use Rattle.std.specs.Prelude.{◌≡◌, ◌<◌, ◌^◌, Some, IsSomeAnd};
ghost use Rattle.ib_page.specs.Image.{IsTreePage};
ghost use Rattle.ib_page.specs.Work.{changed_of};
ghost use Rattle.ib_plans.specs.Agreement.{IsThere, Sets, memory_in, tick};
ghost use Rattle.ib_plans.specs.Moves.{HasMoved, Stays};
ghost use Rattle.ib_plans.specs.Split.{with_prev};

use ib_page::{Image, WorkSet};

/// The changed image of a page that is there.
pub fn image_of(work: &WorkSet, page: u32) -> &Image
    requires { IsThere work.now page }
    ensures { changed_of page work.now ≡ Some result.now }
{
    work.image(page).unwrap()
}

/// Links a leaf back to another one, 0 for none (`btr_attach_half_pages`, `btr_level_list_remove`). Its clock, which is below
/// 2^63, ticks.
pub fn link_back(work: &mut WorkSet, page: u32, prev: u32)
    requires tree { IsSomeAnd (changed_of page work.old) IsTreePage }
    requires leaf { (memory_in work.old page).level ≡ 0 }
    requires clock { (memory_in work.old page).clock < 2 ^ 63 }
    ensures set { Sets page (tick (with_prev prev (memory_in work.old page))) work.old work.new }
    ensures stays { HasMoved Stays (changed_of page work.old) (changed_of page work.new) }
{
    let image = work.edit(page);
    let next = image.next();
    image.set_links(prev, next);
    image.touch();
}
