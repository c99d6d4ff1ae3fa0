//! What is asked of each written page by itself, once it is known where all are met: it is sound, its bit is
//! set exactly where it is met, and a leaf is linked with its neighbours (btr0btr, `btr_validate_level`).

ghost use Rattle.std.specs.Prelude.{◌≡◌, ◌≢◌, ◌<◌, ◌≤◌, ◌↔◌, length, IsTrue, All};
ghost use Rattle.ib_map.specs.Keys.{end_rank};
ghost use Rattle.ib_page.specs.Memory.{image_at};
ghost use Rattle.ib_page.specs.Space.{is_taken};
ghost use Rattle.ib_walk.specs.Pages.{Free, IsSound};
ghost use Rattle.ib_walk.specs.Words.{memory_of};
ghost use Rattle.ib_validate.specs.PageTests.{HasItsBit, PassesAt, bit_of};
ghost use Rattle.ib_validate.specs.PatchTest.{IsLinkedBy, Position};
ghost use Rattle.ib_validate.specs.Positions.{positions_of};

use crate::bits::space_page;
use crate::links::is_linked;
use crate::pages::Pages;
use crate::position::{PagePosition, is_met, position_at};
use crate::reading;
use ib_page::{MAPPED_PAGES, MOST_RECORDS, SpaceImage};

// Whether a page is sound. Page 0 is another kind of page.
fn is_sound_at(after: &Pages<'_>, page: u32) -> bool
    requires { page < length after.now }
    ensures { IsTrue result ↔ (page ≢ 0 → IsSound MOST_RECORDS (memory_of after.now page)) }
{
    page == 0 || reading::is_sound(&after.page(page as usize))
}

// Whether a page's bit is set exactly where it is met. Page 0 has its bit, and is not met.
fn has_its_bit(table: &[Option<PagePosition>], page: u32, is_taken: bool) -> bool
    ensures { IsTrue result ↔ HasItsBit (positions_of table.now) (bit_of is_taken) page }
{
    let is_met = is_met(table, page as usize);
    if page == 0 {
        is_taken && !is_met
    } else {
        is_taken == is_met
    }
}

// Whether a page is free where its bit is not set.
fn is_free_or_taken(after: &Pages<'_>, page: u32, is_taken: bool) -> bool
    requires { page < length after.now }
    ensures { IsTrue result ↔ (bit_of is_taken ≡ 0 → (memory_of after.now page).kind ≡ Free) }
{
    is_taken || reading::is_free(&after.page(page as usize))
}

// Whether a page, where it is met as a leaf, is linked with its neighbours.
fn is_linked_where_met(after: &Pages<'_>, table: &[Option<PagePosition>], page: u32) -> bool
    requires size { length after.now ≡ length table.now }
    requires in_range { page < length table.now }
    ensures { IsTrue result ↔ ((e : Position) → positions_of table.now page ≡ Some e → e.height ≡ 0 → IsLinkedBy (memory_of after.now) end_rank (positions_of table.now) page e) }
{
    match position_at(table, page as usize) {
        Some(position) if position.height == 0 => is_linked(after, table, page, position),
        _ => true,
    }
}

// Whether a page passes, where page 0 is this space page.
fn passes(after: &Pages<'_>, table: &[Option<PagePosition>], space: &SpaceImage, page: u32) -> bool
    requires size { length after.now ≡ length table.now }
    requires in_range { page < length table.now }
    requires few { length table.now ≤ MAPPED_PAGES }
    ensures { IsTrue result ↔ PassesAt (memory_of after.now) end_rank (positions_of table.now) (bit_of (is_taken space.now page)) page }
{
    let is_taken = space.is_taken(page);
    is_sound_at(after, page)
        && has_its_bit(table, page, is_taken)
        && is_free_or_taken(after, page, is_taken)
        && is_linked_where_met(after, table, page)
}

/// Whether these pages pass by themselves, where `table` has where each page is met: each is sound, its bit is
/// set exactly where it is met, and a leaf is linked with its neighbours (btr0btr, `btr_validate_level`).
pub fn all_pass(after: &Pages<'_>, table: &[Option<PagePosition>], pages: &[u32]) -> bool
    requires size { length after.now ≡ length table.now }
    requires some { 0 < length table.now }
    requires few { length table.now ≤ MAPPED_PAGES }
    requires in_range { All (λ p. p < length table.now) pages.now }
    ensures { IsTrue result ↔ All (λ p. PassesAt (memory_of after.now) end_rank (positions_of table.now) (bit_of (is_taken (image_at after.now 0) p)) p) pages.now }
{
    let space = SpaceImage::from_image(space_page(after));
    pages.iter().all(|page| passes(after, table, &space, *page))
}
