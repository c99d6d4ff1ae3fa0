//! What a search is for, and what is sought.

ghost use Rattle.std.specs.Prelude.{◌≡◌};

use ib_levels::Mode;
use ib_map::Key;

/// What the path of a key is searched for (`BTR_SEARCH_LEAF`, `BTR_MODIFY_LEAF`).
#[derive(Clone, Copy, Debug, PartialEq, Eq)]
pub enum Search {
    /// To read the leaf: it is held in S.
    Find,
    /// To change the leaf, where that changes no other page: it is held in X.
    ModifyLeaf,
}

impl Search {
    ghost use Rattle.ib_cursor.specs.Modes.{mode_at};

    // The mode in which it takes a page of this level.
    pub(crate) fn mode_at(self, level: u32) -> Mode
        ensures { result ≡ mode_at self level }
    {
        match self {
            Search::ModifyLeaf if level == 0 => Mode::X,
            _ => Mode::S,
        }
    }
}

/// The key that is sought, and the root of its tree.
#[derive(Clone, Copy)]
pub struct Sought {
    pub root: u32,
    pub key: Key,
}
