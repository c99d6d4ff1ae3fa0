//! The numbers in front of the pages of an image file.

ghost use Rattle.std.specs.Prelude.{◌≡◌, ◌≢◌, ◌^◌, ◌<◌, ◌≤◌, None, Some, length, IfOk, IfErr, OnOk};
ghost use Rattle.ib_map.specs.Space.{has_pages};
ghost use Rattle.ib_image.specs.declared.fault.ImageFault.TheVariants.{OutOfMemory};
ghost use Rattle.ib_image.specs.ImageFaults.{front_fault};
ghost use Rattle.ib_image.specs.ImageFiles.{number_of};
ghost use Rattle.ib_image.specs.Parsed.{IsFront};

use crate::fault::ImageFault;
use crate::image_file::{HEAD_NUMBERS, IMAGE_FORM, PAGE_NUMBERS};
use byteorder::{BigEndian, ByteOrder};
use ib_map::{LEAST_PAGES, MOST_PAGES};

// What stands in front: the number of pages, and the place of page 0.
#[derive(Clone, Copy)]
pub(crate) struct Front {
    pub(crate) pages: u32,
    pub(crate) first: u32,
}

// The number of a file at which a page stands.
pub(crate) fn number_of(page: usize) -> usize
    requires { page ≤ 4096 }
    ensures { result ≡ number_of page }
{
    HEAD_NUMBERS + page * PAGE_NUMBERS
}

// Whether a space has so many pages.
fn is_space(pages: u64) -> bool
    ensures { result ≡ has_pages pages }
{
    u64::from(LEAST_PAGES) <= pages && pages <= u64::from(MOST_PAGES)
}

// What stands in front, where all pages stand behind it, or the first fault there.
#[tactic(auto, unfolding(crate::specs::ImageFaults::front_fault))]
pub(crate) fn front_of(bytes: &[u8]) -> Result<Front, ImageFault>
    requires small { length bytes.now < 2 ^ 35 }
    ensures front { IfOk result (IsFront bytes.now) }
    ensures no_fault { OnOk result (front_fault bytes.now ≡ None) }
    ensures fault { IfErr result (λ fault. front_fault bytes.now ≡ Some fault) }
    ensures memory { IfErr result (λ fault. fault ≢ OutOfMemory) }
{
    if bytes.len() % 8 != 0 {
        return Err(ImageFault::OddLength { bytes: bytes.len() });
    }
    let numbers = (bytes.len() / 8) as u32;
    if numbers < HEAD_NUMBERS as u32 {
        return Err(ImageFault::Short { numbers });
    }
    let form = BigEndian::read_u64(bytes);
    if form != IMAGE_FORM {
        return Err(ImageFault::BadImage { at: 0, word: form });
    }
    let pages = BigEndian::read_u64(&bytes[8..]);
    if !is_space(pages) {
        return Err(ImageFault::BadImage { at: 1, word: pages });
    }
    let first = BigEndian::read_u64(&bytes[16..]);
    if first > u64::from(u32::MAX) {
        return Err(ImageFault::BadImage { at: 2, word: first });
    }
    if numbers < number_of(pages as usize) as u32 {
        return Err(ImageFault::Short { numbers });
    }
    Ok(Front {
        pages: pages as u32,
        first: first as u32,
    })
}
