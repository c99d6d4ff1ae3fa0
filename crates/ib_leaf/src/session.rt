//! What a session and its space are told to be by their own types.

ghost use Rattle.ib_mtr.specs.Mtr.{IsMtr};
ghost use Rattle.ib_leaf.specs.Leaf.{IsSeated};

use ib_latch::Sleep;
use ib_logrec::Law;
use ib_mtr::Mtr;

/// For the proof of who works on a leaf: the space has a number of pages of which the laws speak, and what the
/// session has seen and made fits its log. It changes nothing.
///
/// ```
/// let path = descend(rt, &mut mtr, Search::ModifyLeaf, key);
/// facts_of_session(&mtr);
/// ```
pub fn facts_of_session<L: Law, S: Sleep>(mtr: &Mtr<'_, L, S>)
    requires mtr { IsMtr mtr.now.latches.now mtr.now.pass.now }
    ensures { IsSeated mtr.now.latches.now.sizes mtr.now.pass.now }
{
    let geometry = mtr.geometry();
    let _ = (geometry.pages(), geometry.log_words());
    let pass = mtr.pass();
    let _ = (pass.number(), pass.made(), pass.used());
}
