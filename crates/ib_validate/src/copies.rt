//! Copies of the written pages alone, where the others are the same already.

ghost use Rattle.std.specs.Prelude.{◌≡◌, ◌≢◌, ◌<◌, ℕ, All, false, length};
ghost use Rattle.ib_page.specs.Memory.{image_at};
ghost use Rattle.ib_validate.specs.Positions.{marks_of, positions_of};
ghost use Rattle.ib_validate.specs.TreeMemory.{IsTreeMemory};

use crate::marks::clear_marks;
use crate::position::PagePosition;
use ib_page::Image;

// Copies the images of these pages. The others are the same.
fn copy_images(to: &mut [Image], from: &[Image], pages: &[u32])
    requires size { length to.old ≡ length from.now }
    requires in_range { All (λ p. p < length from.now) pages.now }
    requires others { (page : ℕ) → All (λ p. p ≢ page) pages.now → image_at to.old page ≡ image_at from.now page }
    ensures { to.new ≡ from.now }
{
    for page in pages {
        to[*page as usize] = from[*page as usize];
    }
}

// Copies the positions of these pages. The others are the same.
fn copy_positions(to: &mut [Option<PagePosition>], from: &[Option<PagePosition>], pages: &[u32])
    requires size { length to.old ≡ length from.now }
    requires in_range { All (λ p. p < length from.now) pages.now }
    requires others { (page : ℕ) → All (λ p. p ≢ page) pages.now → positions_of to.old page ≡ positions_of from.now page }
    ensures { positions_of to.new ≡ positions_of from.now }
{
    for page in pages {
        to[*page as usize] = from[*page as usize];
    }
}

// Copies the images and the positions of the marked pages, and takes their marks off.
pub(crate) fn settle_pages(
    before: &mut [Image],
    after: &[Image],
    met_before: &mut [Option<PagePosition>],
    met_after: &[Option<PagePosition>],
    written: &mut [bool],
    pages: &[u32],
)
    requires memory { IsTreeMemory (record { before = before.old; after = after.now; met_before = met_before.old; met_after = met_after.now; written = written.old; pages = pages.now }) }
    requires rest { (page : ℕ) → marks_of written.old page ≡ false → positions_of met_after.now page ≡ positions_of met_before.old page }
    ensures images { before.new ≡ after.now }
    ensures positions { positions_of met_before.new ≡ positions_of met_after.now }
    ensures marks { (page : ℕ) → marks_of written.new page ≡ false }
{
    copy_images(before, after, pages);
    copy_positions(met_before, met_after, pages);
    clear_marks(written, pages);
}
