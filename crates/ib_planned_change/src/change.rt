//! A change planned and made on the images of all pages.

ghost use Rattle.std.specs.Prelude.{◌≡◌, IfErr, OnOk, OnErr};
ghost use Rattle.ib_planned_change.specs.Copies.{IsBehindSome};
ghost use Rattle.ib_planned_change.specs.Changes.{IsMadeForAll, IsPlannedForAll, IsRefusedForAll};

use crate::copies::put_back;
use crate::delete::delete;
use crate::insert::insert;
use crate::refused::Refused;
use ib_map::Change;
use ib_page::{Image, WorkSet};

/// Makes a change of the tree on the images of all pages of a space, which are those behind a kept log: as it is planned behind
/// that log, for every such log. The work set has the pages that the change read and wrote then, as they were and as they are:
/// the words that differ are what the entry of the change writes, and with it the log is kept again. Refused exactly where the
/// map does not make the change, or its insert finds the tree or the space full; the images are as they were then, and the
/// work set may have others of their pages.
pub fn make_change(images: &mut [Image], work: &mut WorkSet, change: Change) -> Result<(), Refused>
    requires { IsBehindSome images.old }
    ensures made { OnOk result (IsMadeForAll change work.new images.old images.new) }
    ensures refused { IfErr result (IsRefusedForAll change images.old) }
    ensures unchanged { OnErr result (images.new ≡ images.old) }
{
    plan_change(work, images, change)?;
    put_back(images, work);
    Ok(())
}

// Plans a change: in the work set are the pages that it reads and writes, as they were and as they are then.
fn plan_change(work: &mut WorkSet, images: &[Image], change: Change) -> Result<(), Refused>
    requires { IsBehindSome images.now }
    ensures planned { OnOk result (IsPlannedForAll change images.now work.new) }
    ensures refused { IfErr result (IsRefusedForAll change images.now) }
{
    match change {
        Change::Insert { key, value } => insert(work, images, key, value),
        Change::Delete { key } => delete(work, images, key),
    }
}
