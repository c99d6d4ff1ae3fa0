//! Whether the image of a page can be read, kept beside it: it is tested anew where the page is written, and nowhere else.

ghost use Rattle.std.specs.Prelude.{◌≡◌, ◌≢◌, ◌<◌, ◌≤◌, ◌↔◌, ℕ, All, true, length, IfOk};
ghost use Rattle.ib_map.specs.declared.TheConstants.{MOST_PAGES};
ghost use Rattle.ib_page.specs.Image.{IsFormed};
ghost use Rattle.ib_page.specs.Memory.{image_at};
ghost use Rattle.ib_validate.specs.Forms.{AreForms};
ghost use Rattle.ib_validate.specs.Positions.{marks_of};

use ib_page::Image;
use std::alloc::{AllocError, Global};

/// Tests each image. It takes no memory.
pub fn test_all(forms: &mut [bool], images: &[Image])
    requires size { length forms.old ≡ length images.now }
    requires few { length images.now ≤ MOST_PAGES }
    ensures { AreForms images.now forms.new }
{
    for page in 0..images.len() {
        forms[page] = images[page].is_formed();
    }
}

// A mark for each image, which was tested.
pub(crate) fn tested(alloc: Global, images: &[Image]) -> Result<Vec<bool>, AllocError>
    requires { length images.now ≤ MOST_PAGES }
    ensures { IfOk result (λ forms. AreForms images.now forms.items) }
{
    let mut forms = vec![in alloc; false; images.len()]?;
    test_all(&mut forms, images);
    Ok(forms)
}

// Tests the images of these pages. The marks of the others are right.
pub(crate) fn test_pages(forms: &mut [bool], images: &[Image], pages: &[u32])
    requires size { length forms.old ≡ length images.now }
    requires few { length images.now ≤ MOST_PAGES }
    requires in_range { All (λ p. p < length images.now) pages.now }
    requires others { (page : ℕ) → page < length images.now → All (λ p. p ≢ page) pages.now
        → (marks_of forms.old page ≡ true) ↔ IsFormed (image_at images.now page) }
    ensures { AreForms images.now forms.new }
{
    for page in pages {
        forms[*page as usize] = images[*page as usize].is_formed();
    }
}

// Copies the marks of these pages. Those of the others are right.
pub(crate) fn copy_forms(to: &mut [bool], from: &[bool], images: &[Image], pages: &[u32])
    requires size { length to.old ≡ length images.now }
    requires from { AreForms images.now from.now }
    requires in_range { All (λ p. p < length images.now) pages.now }
    requires others { (page : ℕ) → page < length images.now → All (λ p. p ≢ page) pages.now
        → (marks_of to.old page ≡ true) ↔ IsFormed (image_at images.now page) }
    ensures { AreForms images.now to.new }
{
    for page in pages {
        to[*page as usize] = from[*page as usize];
    }
}
