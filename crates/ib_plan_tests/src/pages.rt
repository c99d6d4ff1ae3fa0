//! The path of a key in a memory, and its pages in a work set.

ghost use Rattle.std.specs.Prelude.{◌≡◌, ◌<◌, ◌≤◌, ◌^◌, length, slice_get, IsTrue, IsSomeAnd};
ghost use Rattle.std.specs.List.{All};
ghost use Rattle.ib_map.specs.Keys.{rank};
ghost use Rattle.ib_map.specs.declared.TheConstants.{PAGE_WORDS};
ghost use Rattle.ib_page.specs.Form.{page_of};
ghost use Rattle.ib_page.specs.Image.{IsTreePage, records_of};
ghost use Rattle.ib_page.specs.Memory.{word_at};
ghost use Rattle.ib_page.specs.Space.{space_clock_of};
ghost use Rattle.ib_page.specs.Work.{changed_of};
ghost use Rattle.ib_walk.specs.Search.{child_for};
ghost use Rattle.ib_walk.specs.Words.{state_of, image_of, memory_of};
ghost use Rattle.ib_plans.specs.Merge.{siblings_of};
ghost use Rattle.ib_plans.specs.Agreement.{memory_in, path_of, HasTreePages, IsThere};
ghost use Rattle.ib_plan_tests.specs.Reads.{IsReadFrom};

use ib_map::{Key, PAGE_WORDS, is_below};
use ib_merge::{Beside, records_beside};
use ib_page::{Image, Kind, MOST_WORK_PAGES, Path, WorkSet};
use ib_validate::{Page, reading};
use std::process::Abort;

// Clocks below this may tick.
const MOST_CLOCK: u64 = 1 << 63;

// Where the space page has its clock.
const SPACE_CLOCK: usize = 64;

// The image of a page of a memory.
pub(crate) fn image_at<'a>(rt: &impl Abort, memory: &'a [Image], page: u32) -> &'a Image
    ensures words { image_of (word_at memory.now) page ≡ result.now }
    ensures size { length result.now ≡ PAGE_WORDS }
{
    let image = &memory[place_of(rt, memory, page)];
    let _first = image.word(0);
    image
}

// The place of a page in a memory, which has it.
fn place_of(rt: &impl Abort, memory: &[Image], page: u32) -> usize
    ensures place { result ≡ page }
    ensures in_range { result < length memory.now }
{
    assert!(rt; (page as usize) < memory.len());
    page as usize
}

// The pages of a key, from the root down to its leaf.
pub(crate) fn path_to(rt: &impl Abort, memory: &[Image], root: u32, key: Key) -> Path
    ensures way { result ≡ path_of (memory_of memory.now) key root }
    ensures some { 0 < length result }
{
    let mut path = Path::new();
    let mut page = root;
    for _level in 0..reading::level(&Page::test(image_at(rt, memory, root))) {
        path.push(page);
        page = child_at(rt, memory, page, key);
    }
    path.push(page);
    path
}

// The child of a node to which a key belongs.
fn child_at(rt: &impl Abort, memory: &[Image], page: u32, key: Key) -> u32
    ensures { result ≡ child_for key 0 (memory_of memory.now page).records }
{
    let image = image_at(rt, memory, page);
    page_number(rt, beside_in(rt, image, key).here.1)
}

// The records of a node that are for the key's child and beside it.
pub(crate) fn beside_in(rt: &impl Abort, image: &Image, key: Key) -> Beside
    ensures beside { siblings_of key (state_of (page_of image.now)).records ≡ record { left = result.left; here = result.here; right = result.right } }
    ensures child { result.here.1 ≡ child_for key 0 (state_of (page_of image.now)).records }
{
    check_node(rt, image, key);
    records_beside(image, key)
}

// The page is a node to which a key belongs.
fn check_node(rt: &impl Abort, image: &Image, key: Key)
    ensures tree { IsTreePage image.now }
    ensures some { 0 < length (records_of image.now) }
    ensures first { IsSomeAnd (slice_get (records_of image.now) 0) (λ r. rank r.0 ≤ rank key) }
{
    assert!(rt; is_node_for(image, key));
}

// Whether the page is a node to which a key belongs.
pub(crate) fn is_node_for(image: &Image, key: Key) -> bool
    ensures tree { IsTrue result → IsTreePage image.now }
    ensures some { IsTrue result → 0 < length (records_of image.now) }
    ensures first { IsTrue result → IsSomeAnd (slice_get (records_of image.now) 0) (λ r. rank r.0 ≤ rank key) }
{
    if !is_tree(image) || image.is_empty() {
        return false;
    }
    let (first, _) = image.record_at(0);
    !is_below(key, first)
}

// Whether the words are those of a page of a tree.
fn is_tree(image: &Image) -> bool
    ensures { IsTrue result → IsTreePage image.now }
{
    image.is_formed() && image.kind() != Kind::Free
}

// The value of a node's record as the number of a page.
pub(crate) fn page_number(rt: &impl Abort, value: u64) -> u32
    ensures { result ≡ value }
{
    assert!(rt; value <= u32::MAX as u64);
    value as u32
}

// Has the image of a page of the memory in the work set.
pub(crate) fn load(rt: &impl Abort, work: &mut WorkSet, memory: &[Image], page: u32)
    requires { IsReadFrom memory.now work.old }
    ensures { IsReadFrom memory.now work.new }
{
    if work.image(page).is_some() {
        return;
    }
    let image = image_at(rt, memory, page);
    check_clocks(rt, image);
    assert!(rt; work.len() < MOST_WORK_PAGES);
    work.add(page, image);
}

// The clocks of a page may tick, whichever it has.
fn check_clocks(rt: &impl Abort, image: &Image)
    ensures clock { (state_of (page_of image.now)).clock < 2 ^ 63 }
    ensures space_clock { space_clock_of image.now < 2 ^ 63 }
{
    assert!(rt; clock(image) < MOST_CLOCK);
    assert!(rt; image.word(SPACE_CLOCK) < MOST_CLOCK);
}

// .. of several pages.
pub(crate) fn load_all(rt: &impl Abort, work: &mut WorkSet, memory: &[Image], pages: &[u32])
    requires { IsReadFrom memory.now work.old }
    ensures { IsReadFrom memory.now work.new }
{
    for page in pages {
        load(rt, work, memory, *page);
    }
}

// The clock of a page, 0 where its words can't be read.
fn clock(image: &Image) -> u64
    ensures { result ≡ (state_of (page_of image.now)).clock }
{
    if image.is_formed() { image.clock() } else { 0 }
}

// Whether these pages are in the work set, and are pages of a tree.
pub(crate) fn has_tree_pages(work: &WorkSet, pages: &[u32]) -> bool
    ensures { IsTrue result → HasTreePages pages.now work.now }
{
    for page in pages {
        if !has_tree_page(work, *page) {
            return false;
        }
    }
    true
}

fn has_tree_page(work: &WorkSet, page: u32) -> bool
    ensures { IsTrue result → IsSomeAnd (changed_of page work.now) IsTreePage }
{
    match work.image(page) {
        Some(image) => is_tree(image),
        None => false,
    }
}

// Whether these pages are in the work set.
pub(crate) fn has_pages(work: &WorkSet, pages: &[u32]) -> bool
    ensures { IsTrue result → All (IsThere work.now) pages.now }
{
    for page in pages {
        if !has_page(work, *page) {
            return false;
        }
    }
    true
}

// Whether a page is in the work set.
pub(crate) fn has_page(work: &WorkSet, page: u32) -> bool
    ensures { IsTrue result → IsThere work.now page }
{
    work.image(page).is_some()
}

// The leaf behind a page of the work set, 0 for none.
pub(crate) fn next_of(work: &WorkSet, page: u32) -> u32
    ensures { result ≡ (memory_in work.now page).next }
{
    match work.image(page) {
        Some(image) => reading::next(&Page::test(image)),
        None => 0,
    }
}

// Stores the changed images of a work set.
pub(crate) fn store(rt: &impl Abort, memory: &mut [Image], work: &WorkSet)
    ensures { length memory.new ≡ length memory.old }
{
    for place in 0..work.len() {
        let images = work.page_at(place);
        let place = place_of(rt, memory, images.page);
        memory[place] = *images.changed;
    }
}
