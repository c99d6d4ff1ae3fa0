//! The pages that an entry writes: a mark for each, and their list.

ghost use Rattle.std.specs.Prelude.{◌≡◌, ◌≢◌, ◌*◌, ◌<◌, ◌≤◌, ◌||◌, ◌==◌, ℕ, All, false, length};
ghost use Rattle.std.specs.Vec.{vec_capacity};
ghost use Rattle.ib_map.specs.declared.TheConstants.{PAGE_WORDS};
ghost use Rattle.ib_map.specs.Writes.{touches};
ghost use Rattle.ib_validate.specs.PatchTest.{IsListed};
ghost use Rattle.ib_validate.specs.Positions.{marks_of};

use ib_map::Write;

// Marks and lists a page, unless it is marked.
fn mark_page(written: &mut [bool], pages: &mut Vec<u32>, page: u32)
    requires in_range { page < length written.old }
    requires listed { IsListed (marks_of written.old) pages.old.items (length written.old) }
    requires room { length written.old ≤ vec_capacity pages.old }
    ensures marks { (other : ℕ) → marks_of written.new other ≡ (marks_of written.old other || page == other) }
    ensures listed { IsListed (marks_of written.new) pages.new.items (length written.old) }
    ensures room { length written.old ≤ vec_capacity pages.new }
{
    if !written[page as usize] {
        written[page as usize] = true;
        pages.push_reserved(page);
    }
}

// Marks and lists the pages that are written.
pub(crate) fn mark_pages(written: &mut [bool], pages: &mut Vec<u32>, writes: &[Write])
    requires in_range { All (λ w. w.place < length written.old * PAGE_WORDS) writes.now }
    requires listed { IsListed (marks_of written.old) pages.old.items (length written.old) }
    requires room { length written.old ≤ vec_capacity pages.old }
    ensures marks { (page : ℕ) → marks_of written.new page ≡ (marks_of written.old page || touches page writes.now) }
    ensures listed { IsListed (marks_of written.new) pages.new.items (length written.old) }
    ensures room { length written.old ≤ vec_capacity pages.new }
{
    for write in writes {
        mark_page(written, pages, write.page());
    }
}

// Takes the marks off the listed pages, which are all that have one.
pub(crate) fn clear_marks(written: &mut [bool], pages: &[u32])
    requires in_range { All (λ p. p < length written.old) pages.now }
    requires others { (page : ℕ) → All (λ p. p ≢ page) pages.now → marks_of written.old page ≡ false }
    ensures { (page : ℕ) → marks_of written.new page ≡ false }
{
    for page in pages {
        written[*page as usize] = false;
    }
}
