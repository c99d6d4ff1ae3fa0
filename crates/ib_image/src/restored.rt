//! The memory that images and a tail restore, and its map.

ghost use Rattle.std.specs.Prelude.{◌≡◌, ◌⊎◌, List, ℕ, true, length, IfOk, IfErr};
ghost use Rattle.ib_map.specs.Space.{has_pages};
ghost use Rattle.ib_page.specs.Memory.{word_at};
ghost use Rattle.ib_logrec.specs.Law.{AreInGrammar};
ghost use Rattle.ib_walk.specs.Trees.{content_of as content_in};
ghost use Rattle.ib_walk.specs.Words.{IsLawfulMemory, memory_of};
ghost use Rattle.ib_image.specs.Applied.{IsApplied};
ghost use Rattle.ib_image.specs.declared.fault.ImageFault.TheVariants.{NotATree, OutOfMemory};

use crate::apply::put_tail;
use crate::fault::ImageFault;
use ib_logrec::Entry;
use ib_map::PlainMap;
use ib_page::Image;
use ib_replay::Memory;
use ib_tree::{check_tree, content_of};
use std::alloc::Global;

/// What an image file restores: the images of all pages, and the map that their tree holds.
#[derive(Drop)]
pub struct Restored {
    memory: Memory,
    map: PlainMap,
}

impl Restored {
    /// The images, by page.
    pub fn memory(&self) -> &[Image]
        ensures { result.now ≡ self.now.memory }
    {
        self.memory.images()
    }

    /// The map of the tree.
    pub fn map(&self) -> &PlainMap
        ensures { result.now ≡ self.now.map }
    {
        &self.map
    }
}

// Applies a tail to the images of all pages, and reads the map of their tree. Refused where they are no tree then, or
// where memory lacks.
pub(crate) fn restore_images(
    alloc: Global,
    mut images: Vec<Image>,
    starts: &[u32],
    tail: &[Entry],
) -> Result<Restored, ImageFault>
    requires pages { has_pages (length images.items) ≡ true }
    requires size { length starts.now ≡ length images.items }
    requires grammar { AreInGrammar (length images.items) tail.now }
    ensures memory { IfOk result (λ r. IsApplied images.items starts.now tail.now r.memory) }
    ensures lawful { IfOk result (λ r. IsLawfulMemory (length images.items) 1 (word_at r.memory)) }
    ensures map { IfOk result (λ r. r.map ≡ content_in (memory_of r.memory) 1) }
    ensures fault { IfErr result (λ fault. (fault ≡ OutOfMemory) ⊎ ((fault ≡ NotATree) × (memory : List (List ℕ))
        × IsApplied images.items starts.now tail.now memory × (IsLawfulMemory (length images.items) 1 (word_at memory) → ⊥))) }
{
    put_tail(images.as_mut_slice(), starts, tail);
    if !check_tree(&images, 1) {
        return Err(ImageFault::NotATree);
    }
    match content_of(alloc, &images, 1) {
        Ok(map) => Ok(Restored {
            memory: Memory::from_images(images),
            map,
        }),
        Err(_) => Err(ImageFault::OutOfMemory),
    }
}
