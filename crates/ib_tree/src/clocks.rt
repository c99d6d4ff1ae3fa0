//! The law of modify clocks: a page's clock counts the entries that write the page.

use crate::tree_law::Trees;

/// A law of trees under which the modify clock of a page tells whether the page was written since
/// (`buf_block_get_modify_clock`).
pub trait Clocks: Trees {
    ghost use Rattle.std.specs.Prelude.{ℕ, ◌≡◌, true};
    ghost use Rattle.ib_map.specs.Space.{has_pages};
    ghost use Rattle.ib_logrec.specs.Log.{by_place};
    ghost use Rattle.ib_tree.specs.Clocks.{CountsWrites};

    /// What a lawful list of entries says of clocks: an entry raises the clock of a page other than page 0 by
    /// one where it writes the page, and else leaves it. So a clock that is as it was tells of a page that was
    /// not written since.
    fn clocks_law()
        ensures { (pages : ℕ) → has_pages pages ≡ true
            → CountsWrites (Self.Law.lawful pages) (by_place Self.Law.opening pages) };
}
