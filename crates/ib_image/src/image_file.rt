//! A copy with its tail as a file: 64-bit numbers, the highest byte first.

ghost use Rattle.std.specs.Prelude.{◌≡◌, ◌+◌, ◌*◌, ◌^◌, ◌<◌, ◌≤◌, ◌++◌, [], ◌∷◌, length, drop};
ghost use Rattle.std.specs.List.{flat_map};
ghost use Rattle.ib_map.specs.declared.TheConstants.{PAGE_WORDS};
ghost use Rattle.ib_replay.specs.Files.{AreWords, word_bytes};
ghost use Rattle.ib_image.specs.Copies.{first_place};
ghost use Rattle.ib_image.specs.ImageFiles.{image_bytes, image_numbers, number_of, page_numbers};

use crate::copy::{CopiedPage, FuzzyCopy};
use crate::front::number_of;
use byteorder::{BigEndian, ByteOrder};
use ib_map::PAGE_WORDS;
use ib_page::Image;

/// What an image file begins with: the text `IBIMG572`.
pub const IMAGE_FORM: u64 = 0x4942_494d_4735_3732;

const _: () = prove!(IMAGE_FORM == 0x4942_494d_4735_3732);

// The form, the number of pages, and the place of page 0.
pub(crate) const HEAD_NUMBERS: usize = 3;

// A page's place and its words.
pub(crate) const PAGE_NUMBERS: usize = PAGE_WORDS + 1;

// Writes the words of an image to the front of the bytes.
fn write_words(image: &Image, out: &mut [u8])
    requires room { 8 * PAGE_WORDS ≤ length out.old }
    ensures words { out.new ≡ word_bytes image.now ++ drop (8 * PAGE_WORDS) out.old }
    ensures size { length image.now ≡ PAGE_WORDS }
    ensures fits { AreWords image.now }
{
    // For the proof: an image has as many words as a page.
    let _ = image.word(0);
    for index in 0..PAGE_WORDS {
        BigEndian::write_u64(&mut out[8 * index..], image.word(index));
    }
}

// Writes the numbers of a page to the front of the bytes.
fn write_page(page: &CopiedPage, out: &mut [u8])
    requires room { 8 * PAGE_NUMBERS ≤ length out.old }
    ensures numbers { out.new ≡ word_bytes (page_numbers page.now) ++ drop (8 * PAGE_NUMBERS) out.old }
    ensures size { length page.now.image ≡ PAGE_WORDS }
    ensures fits { AreWords (page_numbers page.now) }
{
    BigEndian::write_u64(out, u64::from(page.place));
    write_words(&page.image, &mut out[8..]);
}

// Writes the numbers of all pages to the front of the bytes.
fn write_pages(pages: &[CopiedPage], out: &mut [u8])
    requires few { length pages.now ≤ 4096 }
    requires room { 8 * (PAGE_NUMBERS * length pages.now) ≤ length out.old }
    ensures numbers { out.new ≡ word_bytes (flat_map page_numbers pages.now)
        ++ drop (8 * (PAGE_NUMBERS * length pages.now)) out.old }
    ensures size { length (flat_map page_numbers pages.now) ≡ PAGE_NUMBERS * length pages.now }
    ensures fits { AreWords (flat_map page_numbers pages.now) }
{
    for index in 0..pages.len() {
        write_page(&pages[index], &mut out[8 * (PAGE_NUMBERS * index)..]);
    }
}

// Writes the numbers in front to the front of the bytes.
fn write_head(pages: u64, first: u64, out: &mut [u8])
    requires { 24 ≤ length out.old }
    ensures { out.new ≡ word_bytes (IMAGE_FORM ∷ pages ∷ first ∷ []) ++ drop 24 out.old }
{
    BigEndian::write_u64(out, IMAGE_FORM);
    BigEndian::write_u64(&mut out[8..], pages);
    BigEndian::write_u64(&mut out[16..], first);
}

/// How many bytes the image file of a copy has, with these words as its tail.
///
/// ```
/// let mut out = vec![in alloc; 0; image_len(&copy, tail)]?;
/// ```
pub fn image_len(copy: &FuzzyCopy, tail: &[u64]) -> usize
    requires { length tail.now < 2 ^ 32 }
    ensures { result ≡ 8 * (number_of (length copy.now.pages) + length tail.now) }
{
    8 * (number_of(copy.pages.len()) + tail.len())
}

/// Writes the image file of a copy and the words of its tail: the text `IBIMG572`, the number of pages, the place of
/// page 0, each page's place and words, and the words of the tail. Those are the words of the log from the copy's
/// `tail_word` on. It takes no memory.
///
/// ```
/// let tail = &closed.log()[copy.tail_word() as usize..];
/// let mut out = vec![in alloc; 0; image_len(&copy, tail)]?;
/// write_image(&copy, tail, &mut out);
/// ```
pub fn write_image(copy: &FuzzyCopy, tail: &[u64], out: &mut [u8])
    requires { length out.old ≡ 8 * (number_of (length copy.now.pages) + length tail.now) }
    ensures file { out.new ≡ image_bytes (first_place copy.now.pages) copy.now.pages tail.now }
    ensures small { first_place copy.now.pages < 2 ^ 32 }
    ensures fits { AreWords (image_numbers (first_place copy.now.pages) copy.now.pages tail.now) }
{
    let pages = copy.pages.as_slice();
    write_head(pages.len() as u64, u64::from(pages[0].place), out);
    write_pages(pages, &mut out[8 * HEAD_NUMBERS..]);
    BigEndian::write_u64_into(
        tail,
        &mut out[8 * (HEAD_NUMBERS + PAGE_NUMBERS * pages.len())..],
    );
}
