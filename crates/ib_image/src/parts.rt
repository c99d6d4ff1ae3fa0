//! The pages of an image file, from its numbers.

ghost use Rattle.std.specs.Prelude.{◌≡◌, ◌+◌, ◌^◌, ◌<◌, ◌≤◌, ◌*◌, ◌%◌, length, IfOk, IfErr, OnOk};
ghost use Rattle.ib_map.specs.declared.TheConstants.{PAGE_WORDS};
ghost use Rattle.ib_replay.specs.Files.{AreWords, word_bytes};
ghost use Rattle.ib_image.specs.ImageFaults.{ArePlaces, IsPlaceFault, is_place};
ghost use Rattle.ib_image.specs.ImageFiles.{number_of};
ghost use Rattle.ib_image.specs.Parsed.{copy_in, images_of, page_in_file, starts_from};

use crate::fault::ImageFault;
use crate::front::{Front, number_of};
use crate::image_file::{HEAD_NUMBERS, PAGE_NUMBERS};
use byteorder::{BigEndian, ByteOrder};
use ib_map::PAGE_WORDS;
use ib_page::Image;
use std::alloc::{AllocError, Global};

// The numbers that the bytes are.
pub(crate) fn numbers_of(alloc: Global, bytes: &[u8]) -> Result<Vec<u64>, AllocError>
    requires { length bytes.now % 8 ≡ 0 }
    ensures numbers { IfOk result (λ numbers. word_bytes numbers.items ≡ bytes.now) }
    ensures fits { IfOk result (λ numbers. AreWords numbers.items) }
    ensures size { IfOk result (λ numbers. 8 * length numbers.items ≡ length bytes.now) }
{
    let mut numbers = vec![in alloc; 0; bytes.len() / 8]?;
    BigEndian::read_u64_into(bytes, &mut numbers);
    Ok(numbers)
}

// Whether the place of a page may stand before a tail of so many entries that begins at the first place.
fn may_stand(first: u32, entries: usize, page: usize, place: u64) -> bool
    ensures { result ≡ is_place first entries page place }
{
    let first = u64::from(first);
    if page == 0 {
        return place == first;
    }
    first <= place && place - first <= entries as u64
}

// The first page whose place may not stand, as the fault.
pub(crate) fn test_places(front: Front, entries: usize, numbers: &[u64]) -> Result<(), ImageFault>
    requires few { front.pages ≤ 4096 }
    requires whole { number_of front.pages ≤ length numbers.now }
    ensures no_fault { OnOk result (ArePlaces front.first entries (copy_in numbers.now front.pages) front.pages) }
    ensures fault { IfErr result (IsPlaceFault front.first entries (copy_in numbers.now front.pages)) }
{
    for page in 0..front.pages as usize {
        let at = number_of(page);
        let place = numbers[at];
        if !may_stand(front.first, entries, page, place) {
            return Err(ImageFault::BadImage {
                at: at as u32,
                word: place,
            });
        }
    }
    Ok(())
}

// An image of these words.
fn image_with(words: &[u64]) -> Image
    requires { length words.now ≡ PAGE_WORDS }
    ensures { result ≡ words.now }
{
    let mut image = Image::free(0);
    for index in 0..PAGE_WORDS {
        image.set_word(index, words[index]);
    }
    image
}

// The image of a page.
fn image_in(numbers: &[u64], page: usize) -> Image
    requires few { page < 4096 }
    requires whole { number_of (page + 1) ≤ length numbers.now }
    ensures { result ≡ (page_in_file numbers.now page).image }
{
    let at = HEAD_NUMBERS + page * PAGE_NUMBERS + 1;
    image_with(&numbers[at..at + PAGE_WORDS])
}

// The images of so many pages.
pub(crate) fn images_in(
    alloc: Global,
    numbers: &[u64],
    pages: usize,
) -> Result<Vec<Image>, AllocError>
    requires few { pages ≤ 4096 }
    requires whole { number_of pages ≤ length numbers.now }
    ensures { IfOk result (λ images. images.items ≡ images_of (copy_in numbers.now pages)) }
{
    let mut images = Vec::with_capacity(alloc, pages)?;
    for page in 0..pages {
        images.push(image_in(numbers, page))?;
    }
    Ok(images)
}

// The entries of the tail at which the pages begin.
pub(crate) fn starts_in(
    alloc: Global,
    numbers: &[u64],
    front: Front,
    entries: usize,
) -> Result<Vec<u32>, AllocError>
    requires few { front.pages ≤ 4096 }
    requires whole { number_of front.pages ≤ length numbers.now }
    requires short { entries < 2 ^ 32 }
    requires places { ArePlaces front.first entries (copy_in numbers.now front.pages) front.pages }
    ensures { IfOk result (λ starts. starts.items ≡ starts_from front.first (copy_in numbers.now front.pages)) }
{
    let mut starts = Vec::with_capacity(alloc, front.pages as usize)?;
    for page in 0..front.pages as usize {
        let place = numbers[number_of(page)];
        starts.push((place - u64::from(front.first)) as u32)?;
    }
    Ok(starts)
}
