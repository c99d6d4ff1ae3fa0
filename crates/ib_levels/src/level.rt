//! Modes of a latch, and the levels at which latches are taken.

ghost use Rattle.std.specs.Prelude.{◌≡◌, ◌<◌, ◌≤◌, ◌↔◌, SomeIff, IsSome, IfSome};
ghost use Rattle.ib_levels.specs.Level.{may_follow, number_of};

/// The mode of a grant: shared, shared-exclusive or exclusive (WL#6363).
#[derive(Clone, Copy, PartialEq, Eq, Debug)]
pub enum Mode {
    /// Shared.
    S,
    /// Shared with readers, exclusive among writers.
    Sx,
    /// Exclusive.
    X,
}

/// The level at which a latch is taken, from low to high. A latch is taken below those that the
/// session holds (sync0debug). The levels are this project's own.
#[derive(Clone, Copy, PartialEq, Eq, Debug)]
pub enum Level {
    /// The log's latch, 1.
    Log,
    /// A page that was just taken from the space, 2.
    PageNew,
    /// The space's page 0, 3.
    Space,
    /// A page of the tree, 4.
    TreeNode,
    /// The index's latch, 5.
    IndexTree,
}

impl Level {
    /// The level's number, 1 to 5.
    pub fn number(self) -> u32
        ensures { result ≡ number_of self }
    {
        match self {
            Level::Log => 1,
            Level::PageNew => 2,
            Level::Space => 3,
            Level::TreeNode => 4,
            Level::IndexTree => 5,
        }
    }

    /// The level with this number, None where it is not 1 to 5.
    pub fn from_number(number: u32) -> Option<Level>
        ensures found { IfSome result (λ level. number_of level ≡ number) }
        ensures within { IsSome result ↔ ((1 ≤ number) × (number ≤ 5)) }
    {
        match number {
            1 => Some(Level::Log),
            2 => Some(Level::PageNew),
            3 => Some(Level::Space),
            4 => Some(Level::TreeNode),
            5 => Some(Level::IndexTree),
            _ => None,
        }
    }

    /// Whether a latch may be taken at this level beside one that is held at `held`: below it, or
    /// both at `TreeNode`, or both at `PageNew`.
    pub fn may_follow(self, held: Level) -> bool
        ensures { result ≡ may_follow held self }
    {
        match (held, self) {
            (Level::TreeNode, Level::TreeNode) | (Level::PageNew, Level::PageNew) => true,
            _ => self.number() < held.number(),
        }
    }
}
