//! Images of pages, copied into a work set and put back.

ghost use Rattle.std.specs.Prelude.{◌≡◌, ◌+◌, ◌<◌, ◌≤◌, length};
ghost use Rattle.std.specs.List.{All};
ghost use Rattle.ib_map.specs.declared.TheConstants.{PAGE_WORDS};
ghost use Rattle.ib_page.specs.Memory.{image_at};
ghost use Rattle.ib_page.specs.declared.work.TheConstants.{MOST_WORK_PAGES};
ghost use Rattle.ib_plans.specs.Agreement.{IsThere};
ghost use Rattle.ib_planned_change.specs.Copies.{HasCopied, put_back};

use ib_page::{Image, WorkSet};

// The image of a page, which has all words, as each image has.
pub(crate) fn image_at(images: &[Image], page: u32) -> &Image
    requires { page < length images.now }
    ensures image { image_at images.now page ≡ result.now }
    ensures size { length result.now ≡ PAGE_WORDS }
{
    let image = &images[page as usize];
    let _first = image.word(0);
    image
}

// Copies a page into a work set, unless it is there.
pub(crate) fn copy(work: &mut WorkSet, images: &[Image], page: u32)
    requires page { page < length images.now }
    requires room { length work.old < MOST_WORK_PAGES }
    ensures copied { HasCopied images.now 1 work.old work.new }
    ensures there { IsThere work.new page }
{
    if work.image(page).is_some() {
        return;
    }
    work.add(page, image_at(images, page));
}

// Copies pages into a work set, each unless it is there.
pub(crate) fn copy_all(work: &mut WorkSet, images: &[Image], pages: &[u32])
    requires pages { All (λ page. page < length images.now) pages.now }
    requires room { length work.old + length pages.now ≤ MOST_WORK_PAGES }
    ensures copied { HasCopied images.now (length pages.now) work.old work.new }
    ensures there { All (IsThere work.new) pages.now }
{
    for page in pages {
        copy(work, images, *page);
    }
}

// Puts the changed images of a work set in their places.
pub(crate) fn put_back(images: &mut [Image], work: &WorkSet)
    requires within { All (λ w. w.page < length images.old) work.now }
    ensures put { images.new ≡ put_back work.now images.old }
    ensures whole { All (λ w. length w.changed ≡ PAGE_WORDS) work.now }
{
    for place in 0..work.len() {
        let page = work.page_at(place);
        let _first = page.changed.word(0);
        images[page.page as usize] = *page.changed;
    }
}
