//! The pages of a descent, from the root to a leaf (btr0cur, `btr_cur_search_to_nth_level`).

ghost use Rattle.std.specs.Prelude.{◌≡◌, ◌-◌, ◌<◌, ◌≤◌, ◌++◌, ◌∷◌, [], length, slice_get, IsTrue, IsNone, IfSome, ◌↔◌, Some};

use crate::MOST_LEVEL;
use std::marker::Model;

/// The most pages from the root to a leaf.
pub const MOST_PATH: usize = 8;

const _: () = prove!(MOST_PATH == MOST_LEVEL as usize + 1);

/// The pages of a descent, from the root on, `MOST_PATH` at most. Contracts see their list.
#[derive(Debug, Drop)]
pub struct Path {
    pages: [u32; MOST_PATH],
    len: usize,
}

impl Model for Path {
    ghost use Rattle.std.specs.Prelude.{List, ℕ, ◌≤◌, take};
    ghost use Rattle.ib_page.specs.declared.path.TheConstants.{MOST_PATH};

    ghost Value = { List ℕ };

    ghost view = { λ p. take p.len p.pages };

    ghost invariant = { λ p. p.len ≤ MOST_PATH };
}

impl Path {
    /// A path with no page.
    pub fn new() -> Path
        ensures { result ≡ [] }
    {
        Path {
            pages: [0; MOST_PATH],
            len: 0,
        }
    }

    /// How many pages the path has, at most `MOST_PATH`.
    pub fn len(&self) -> usize
        ensures count { result ≡ length self.now }
        ensures few { result ≤ MOST_PATH }
    {
        self.len
    }

    /// Whether the path has no page.
    pub fn is_empty(&self) -> bool
        ensures { IsTrue result ↔ (self.now ≡ []) }
    {
        self.len == 0
    }

    /// Adds a page behind the others. There must be room for it.
    pub fn push(&mut self, page: u32)
        requires { length self.old < MOST_PATH }
        ensures { self.new ≡ self.old ++ page ∷ [] }
    {
        self.pages[self.len] = page;
        self.len += 1;
    }

    /// The pages, from the root on.
    pub fn pages(&self) -> &[u32]
        ensures pages { result.now ≡ self.now }
        ensures few { length self.now ≤ MOST_PATH }
    {
        &self.pages[..self.len]
    }

    /// The last page. None exactly where there is no page.
    pub fn last(&self) -> Option<u32>
        ensures none { IsNone result ↔ (self.now ≡ []) }
        ensures last { IfSome result (λ page. slice_get self.now (length self.now - 1) ≡ Some page) }
    {
        if self.len == 0 {
            return None;
        }
        Some(self.pages[self.len - 1])
    }
}
