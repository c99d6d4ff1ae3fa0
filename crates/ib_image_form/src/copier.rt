//! A session that copies all pages beside those of a script.

ghost use Rattle.std.specs.Prelude.{◌≡◌, [], ◌∷◌, length, true, IfOk};
ghost use Rattle.ib_map.specs.Space.{has_pages};
ghost use Rattle.ib_rule.specs.declared.view.Role.TheVariants.{Session};
ghost use Rattle.ib_rule.specs.Pass.{IsAtRest};
ghost use Rattle.ib_rule.specs.Views.{seated};
ghost use Rattle.ib_image_form.specs.Copying.{IsCopyWithTail};

use ib_image::{FuzzyCopy, copy_all};
use ib_index::{Index, SharedSpace};
use ib_map::OutOfMemory;
use ib_rule::Pass;
use ib_runs::{Beside, Gate};
use std::alloc::{AllocError, Global};
use std::marker::Model;
use std::sync::Wait;

/// Copies all pages beside the sessions of a script, by one call of a session of its own. The gate is called before the
/// call and once after it.
#[derive(Drop)]
pub struct Copier {
    copy: FuzzyCopy,
}

impl Model for Copier {
    ghost use Rattle.ib_image.specs.Copies.{CopyState};

    ghost Value = { CopyState };

    ghost view = { λ c. c.copy };
}

impl Copier {
    /// Room for a copy of a space of so many pages. Refused where memory lacks.
    pub fn with_room(alloc: Global, pages: u32) -> Result<Copier, OutOfMemory>
        requires { has_pages pages ≡ true }
        ensures { IfOk result (λ copier. length copier.pages ≡ pages) }
    {
        let copy = FuzzyCopy::with_room(alloc, pages)?;
        Ok(Copier { copy })
    }

    /// The copy that it made last.
    pub fn copy(&self) -> &FuzzyCopy
        ensures { result.now ≡ self.now }
    {
        &self.copy
    }
}

// The one call of the session that copies.
fn copy_pages<G: Gate, R: Wait>(
    rt: &R,
    index: &Index,
    pass: &mut Pass,
    gate: &G,
    copy: &mut FuzzyCopy,
)
    requires rest { IsAtRest index.now pass.old }
    requires new { pass.old.view ≡ seated (Session pass.old.number) }
    requires size { length copy.old.pages ≡ index.now.sizes.pages }
    ensures rest { IsAtRest index.now pass.new }
    ensures number { pass.new.number ≡ pass.old.number }
    ensures role { pass.new.view.role ≡ Session pass.new.number }
    ensures unchanged { pass.new.view.memory.own ≡ [] }
    ensures copy { IsCopyWithTail copy.new index.now.sizes.pages pass.new.view.memory.seen }
{
    // For the proof: the number of pages is one that a space has.
    let _ = index.latches().space().geometry().pages();
    gate.pause(rt, pass, pass.number(), 1);
    copy_all(rt, index.latches(), pass, copy);
    gate.pause(rt, pass, pass.number(), 2);
}

impl Beside<Index> for Copier {
    type Guest = Pass;

    ghost passes = { λ pass. pass ∷ [] };

    ghost serves = { λ copier pages. length copier.pages ≡ pages };

    ghost holds = { λ copier pages log. IsCopyWithTail copier pages log };

    fn connect(&self, alloc: Global, index: &mut Index) -> Result<Self::Guest, OutOfMemory> {
        match index.connect(alloc) {
            Ok(pass) => Ok(pass),
            Err(_) => Err(AllocError),
        }
    }

    fn is_there(&self) -> bool {
        true
    }

    fn work<G: Gate, R: Wait>(&mut self, rt: &R, index: &Index, guest: &mut Self::Guest, gate: &G) {
        copy_pages(rt, index, guest, gate, &mut self.copy);
    }

    fn disconnect(index: &mut Index, guest: Self::Guest) {
        index.disconnect(guest);
    }
}
