//! Which pages an insert takes.

ghost use Rattle.std.specs.Prelude.{◌≡◌, ◌<◌, ◌≤◌, List, ℕ, Some, IfOk, IfErr};
ghost use Rattle.ib_page.specs.declared.space.TheConstants.{MAPPED_PAGES};
ghost use Rattle.ib_page.specs.declared.path.TheConstants.{MOST_PATH};
ghost use Rattle.ib_page.specs.Work.{changed_of};
ghost use Rattle.ib_walk.specs.Full.{chosen, free_of};
ghost use Rattle.ib_plans.specs.declared.fault.TreeFault.{TreeFault};
ghost use Rattle.ib_plans.specs.Agreement.{IsThere, bits_in};

use ib_page::{Path, SpaceImage, WorkSet};
use ib_plans::{TreeFault, image_of};

/// The lowest free pages of a space of so many, as many as are needed, ascending (fsp0fsp,
/// `fsp_alloc_free_page`). `NeedPages` exactly where fewer are free. Page 0 is there.
pub fn choose_pages(work: &WorkSet, pages: u32, need: u32) -> Result<Path, TreeFault>
    requires space { IsThere work.now 0 }
    requires pages { pages ≤ MAPPED_PAGES }
    requires few { need ≤ MOST_PATH }
    ensures chosen { IfOk result (λ path. (image : List ℕ) → changed_of 0 work.now ≡ Some image
        → (path ≡ chosen (bits_in pages image) pages need) × (need ≤ free_of (bits_in pages image) pages)) }
    ensures short { IfErr result (λ fault. (image : List ℕ) → changed_of 0 work.now ≡ Some image
        → (fault ≡ TreeFault.NeedPages (free_of (bits_in pages image) pages) need) × (free_of (bits_in pages image) pages < need)) }
{
    let space = SpaceImage::from_image(image_of(work, 0));
    let free = space.free_count(pages);
    if free < need {
        return Err(TreeFault::NeedPages { free, need });
    }
    Ok(lowest(space, pages, need))
}

// The lowest free pages: so many are free.
fn lowest(mut space: SpaceImage, pages: u32, need: u32) -> Path
    requires pages { pages ≤ MAPPED_PAGES }
    requires few { need ≤ MOST_PATH }
    requires free { need ≤ free_of (bits_in pages space) pages }
    ensures { result ≡ chosen (bits_in pages space) pages need }
{
    let mut path = Path::new();
    for _taken in 0..need {
        let page = space.lowest_free(pages).unwrap();
        space.take(page);
        path.push(page);
    }
    path
}
