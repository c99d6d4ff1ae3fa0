//! The law of a mini-transaction whose page is lent and changed.

ghost use Rattle.std.specs.Prelude.{ℕ, List};
ghost use Rattle.ib_page.specs.Work.{with_changed};
ghost use Rattle.ib_rule.specs.Pass.{PassState};
ghost use Rattle.ib_rule.specs.Space.{SpaceState};
ghost use Rattle.ib_mtr.specs.Mtr.{IsMtr, with_work};

/// What `edit` lends may be changed in any way: with another changed image of a page it is a
/// mini-transaction as before.
pub fn edit_law()
    ensures { (space : SpaceState) (p : PassState) (page : ℕ) (image : List ℕ) → IsMtr space p
        → IsMtr space (with_work (with_changed page image p.work) p) }
{}
