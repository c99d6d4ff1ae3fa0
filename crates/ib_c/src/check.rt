//! Whether the words of all pages are those of one tree, for C.

ghost use Rattle.std.specs.Prelude.{◌≡◌, ◌*◌, ◌≤◌, ℕ, length, map, IfNone, IfOk, IfSome};
ghost use Rattle.std.specs.Fork.{slice_chunk};
ghost use Rattle.std.specs.List.{range_with_len};
ghost use Rattle.ib_map.specs.declared.TheConstants.{MOST_PAGES, PAGE_WORDS};
ghost use Rattle.ib_map.specs.Space.{has_pages};
ghost use Rattle.ib_c.specs.Checks.{ArePages, HasCheckedTree, IsChecked};

use crate::status::Status;
use ib_map::{LEAST_PAGES, MOST_PAGES, PAGE_WORDS};
use ib_page::Image;
use ib_tree::check_tree;
use std::alloc::{AllocError, Global};

// Whether a space may have so many pages.
fn is_space(pages: usize) -> bool
    ensures { result ≡ has_pages pages }
{
    LEAST_PAGES as usize <= pages && pages <= MOST_PAGES as usize
}

// How many pages the words are, where a space may have so many.
fn count_pages(words: &[u64]) -> Option<usize>
    ensures some { IfSome result (ArePages words.now) }
    ensures none { IfNone result ((pages : ℕ) → ¬ ArePages words.now pages) }
{
    let pages = words.len() / PAGE_WORDS;
    if words.len() % PAGE_WORDS != 0 || !is_space(pages) {
        return None;
    }
    Some(pages)
}

// An image of these words.
fn image_with(words: &[u64]) -> Image
    requires { length words.now ≡ PAGE_WORDS }
    ensures { result ≡ words.now }
{
    let mut image = Image::free(0);
    for index in 0..PAGE_WORDS {
        image.set_word(index, words[index]);
    }
    image
}

// The images of all pages, from their words.
fn images_with(alloc: Global, words: &[u64], pages: usize) -> Result<Vec<Image>, AllocError>
    requires few { pages ≤ MOST_PAGES }
    requires size { length words.now ≡ pages * PAGE_WORDS }
    ensures { IfOk result (λ images. images.items ≡ map (slice_chunk words.now PAGE_WORDS) (range_with_len 0 pages)) }
{
    let mut images = Vec::with_capacity(alloc, pages)?;
    for page in 0..pages {
        let first = page * PAGE_WORDS;
        images.push(image_with(&words[first..first + PAGE_WORDS]))?;
    }
    Ok(images)
}

// Whether the words are those of one tree, or why that is not known.
fn check(alloc: Global, words: &[u64]) -> Status
    ensures { IsChecked words.now result }
{
    let Some(pages) = count_pages(words) else {
        return Status::BadPages;
    };
    let Ok(images) = images_with(alloc, words, pages) else {
        return Status::OutOfMemory;
    };
    if check_tree(&images, 1) {
        Status::Done
    } else {
        Status::Faulty
    }
}

/// Whether the words of all pages, one page behind another, are those of a lawful tree whose root is page 1
/// (`btr_validate_index`).
#[unsafe(no_mangle)]
pub extern "C" fn ib_c_check_tree(alloc: Global, words: &[u64]) -> u32
    ensures { HasCheckedTree words.now result }
{
    check(alloc, words).number()
}
