//! Whether the pages of a space are a lawful memory, by all pages at once (btr0btr, `btr_validate_index`): the test
//! of a patch that writes every page of a new space.

ghost use Rattle.std.specs.Prelude.{◌≡◌, ◌<◌, ◌≤◌, ◌^◌, ◌↔◌, ℕ, length, IsTrue, true, None};
ghost use Rattle.ib_map.specs.Keys.{end_rank};
ghost use Rattle.ib_page.specs.Memory.{image_at, word_at};
ghost use Rattle.ib_walk.specs.Trees.{opening_pages};
ghost use Rattle.ib_walk.specs.Words.{memory_of, IsLawfulMemory};
ghost use Rattle.ib_validate.specs.PatchTest.{set_roots, visited};
ghost use Rattle.ib_validate.specs.Positions.{is_good_at, marks_of, positions_of, IsStep};
ghost use Rattle.ib_tree.specs.PageLists.{is_below, pages_below};
ghost use Rattle.ib_tree.specs.Tests.{root_positions};
ghost use Rattle.ib_tree.specs.WholeTest.{AreLow, MayVisitAll, PassesAllPages};

use ib_map::{Key, LEAST_PAGES, MOST_PAGES, PAGE_WORDS};
use ib_page::{Image, SpaceImage};
use ib_validate::{PagePosition, Pages, all_pass, reading, space_page, test_all, visit_levels};

// The most pages, as the length of a list.
const MOST_LISTED: usize = MOST_PAGES as usize;

// How high each of two trees is at most.
const MOST_LEVEL_OF_TWO: u32 = 3;

/// Whether these are the images of a lawful memory whose trees have the roots 1 to `roots`, one or two: page 0 is the
/// space page of so many pages, each other page is met once on the walks from the roots or is free, as its bit says,
/// and the keys, levels and links of each tree are right. False for all other images, malformed ones too. It takes no
/// memory.
pub fn check_tree(memory: &[Image], roots: u32) -> bool
    requires some { 0 < roots }
    requires few { roots ≤ 2 }
    requires least { LEAST_PAGES ≤ length memory.now }
    requires most { length memory.now ≤ MOST_PAGES }
    ensures { IsTrue result ↔ IsLawfulMemory (length memory.now) roots (word_at memory.now) }
{
    let mut old = [None; MOST_LISTED];
    let mut table = [None; MOST_LISTED];
    let mut pages = [0; MOST_LISTED];
    let mut forms = [false; MOST_LISTED];
    let written = [true; MOST_LISTED];
    check_with(
        &mut old, &mut table, &mut pages, &mut forms, &written, memory, roots,
    )
}

// Checks a memory with lists that have room for each page: no page is met yet, and all are marked.
fn check_with(
    old: &mut [Option<PagePosition>],
    table: &mut [Option<PagePosition>],
    pages: &mut [u32],
    forms: &mut [bool],
    written: &[bool],
    memory: &[Image],
    roots: u32,
) -> bool
    requires some { 0 < roots }
    requires few { roots ≤ 2 }
    requires least { LEAST_PAGES ≤ length memory.now }
    requires most { length memory.now ≤ MOST_PAGES }
    requires old_room { length memory.now ≤ length old.old }
    requires table_room { length memory.now ≤ length table.old }
    requires page_room { length memory.now ≤ length pages.old }
    requires form_room { length memory.now ≤ length forms.old }
    requires mark_room { length memory.now ≤ length written.now }
    requires numbered { length pages.old < 2 ^ 32 }
    requires unmet_before { (page : ℕ) → positions_of old.old page ≡ None }
    requires unmet { (page : ℕ) → positions_of table.old page ≡ None }
    requires marked { (page : ℕ) → page < length written.now → marks_of written.now page ≡ true }
    ensures { IsTrue result ↔ IsLawfulMemory (length memory.now) roots (word_at memory.now) }
{
    let count = memory.len();
    meet_opening(old, roots);
    meet_opening(table, roots);
    list_pages(pages);
    test_all(&mut forms[..count], memory);
    is_lawful(
        &mut table[..count],
        &Pages::new(memory, &forms[..count]),
        &old[..count],
        &written[..count],
        &pages[..count],
        roots,
    )
}

// Whether the pages pass, where `old` and `table` have where those of a new space are met, and all pages are marked
// and listed.
fn is_lawful(
    table: &mut [Option<PagePosition>],
    memory: &Pages<'_>,
    old: &[Option<PagePosition>],
    written: &[bool],
    pages: &[u32],
    roots: u32,
) -> bool
    requires some { 0 < roots }
    requires few { roots ≤ 2 }
    requires least { LEAST_PAGES ≤ length memory.now }
    requires most { length memory.now ≤ MOST_PAGES }
    requires may { MayVisitAll (length memory.now) roots table.old old.now written.now pages.now }
    ensures { IsTrue result ↔ IsLawfulMemory (length memory.now) roots (word_at memory.now) }
{
    visit_all(table, memory, old, written, pages, roots)
        && all_pages_pass(memory, table, pages, roots)
}

// Visits all pages, from the roots down.
fn visit_all(
    table: &mut [Option<PagePosition>],
    memory: &Pages<'_>,
    old: &[Option<PagePosition>],
    written: &[bool],
    pages: &[u32],
    roots: u32,
) -> bool
    requires may { MayVisitAll (length memory.now) roots table.old old.now written.now pages.now }
    requires roots { roots < length memory.now }
    ensures { IsStep (visited (is_below (length memory.now)) (opening_pages roots) (memory_of memory.now) (is_good_at (memory_of memory.now)) end_rank roots
        (pages_below (length memory.now)) (root_positions roots)) result (positions_of table.new) }
{
    meet_roots(table, memory, roots);
    visit_levels(table, memory, old, written, pages)
}

// Whether all pages pass what is asked of them where they are met, beside the visits.
fn all_pages_pass(
    memory: &Pages<'_>,
    table: &[Option<PagePosition>],
    pages: &[u32],
    roots: u32,
) -> bool
    requires size { length table.now ≡ length memory.now }
    requires some { 0 < roots }
    requires few { roots ≤ 2 }
    requires least { LEAST_PAGES ≤ length memory.now }
    requires most { length memory.now ≤ MOST_PAGES }
    requires pages { pages.now ≡ pages_below (length memory.now) }
    ensures passes { IsTrue result ↔ PassesAllPages memory.now roots (positions_of table.now) }
    ensures size { length (image_at memory.now 0) ≡ PAGE_WORDS }
{
    SpaceImage::from_image(space_page(memory)).is_formed(memory.len() as u32)
        && are_low(memory, roots)
        && all_pass(memory, table, pages)
}

// Whether each root has a level that so many trees may have.
fn are_low(memory: &Pages<'_>, roots: u32) -> bool
    requires some { 0 < roots }
    requires few { roots ≤ 2 }
    requires least { LEAST_PAGES ≤ length memory.now }
    ensures { IsTrue result ↔ AreLow memory.now roots }
{
    roots == 1
        || reading::level(&memory.page(1)) <= MOST_LEVEL_OF_TWO
            && reading::level(&memory.page(2)) <= MOST_LEVEL_OF_TWO
}

// Each root is met as a leaf with all keys, as in a new space.
fn meet_opening(table: &mut [Option<PagePosition>], roots: u32)
    requires roots { roots < length table.old }
    requires unmet { (page : ℕ) → positions_of table.old page ≡ None }
    ensures { positions_of table.new ≡ root_positions roots }
{
    for met in 0..roots {
        let root = met + 1;
        table[root as usize] = Some(PagePosition {
            tree: root,
            height: 0,
            low: Key::least(),
            high: None,
        });
    }
}

// Each root is met with all keys at the height of its level.
fn meet_roots(table: &mut [Option<PagePosition>], memory: &Pages<'_>, roots: u32)
    requires size { length table.old ≡ length memory.now }
    requires roots { roots < length memory.now }
    ensures { positions_of table.new ≡ set_roots (is_below (length memory.now)) (memory_of memory.now) end_rank roots (positions_of table.old) }
{
    for met in 0..roots {
        let root = roots - met;
        table[root as usize] = Some(PagePosition {
            tree: root,
            height: reading::level(&memory.page(root as usize)),
            low: Key::least(),
            high: None,
        });
    }
}

// All pages, by number.
fn list_pages(pages: &mut [u32])
    requires { length pages.old < 2 ^ 32 }
    ensures { pages.new ≡ pages_below (length pages.old) }
{
    for page in 0..pages.len() {
        pages[page] = page as u32;
    }
}
