//! What a session has on each of its latches, and which latch it may take beside them.

ghost use Rattle.std.specs.Prelude.{◌≡◌};
ghost use Rattle.ib_levels.specs.Listed.{Allows};
ghost use Rattle.ib_levels.specs.Holding.{held_of, is_held, levels_of};

use crate::held::Held;
use crate::latch::Latch;
use crate::level::{Level, Mode};
use crate::listed::{Against, Listed, allows, is_among};

/// What a session has on one latch: the level of its first acquisition, and the grants by mode.
/// A reservation of X counts as a grant of X.
#[derive(Clone, Copy, PartialEq, Eq, Debug)]
pub struct Holding {
    pub latch: Latch,
    pub level: Level,
    pub s: u32,
    pub sx: u32,
    pub x: u32,
}

impl Holding {
    /// The holding as one element of a list: its strongest mode, at its level.
    pub fn held(&self) -> Held
        ensures { result ≡ held_of self.now }
    {
        let mode = if self.x > 0 {
            Mode::X
        } else if self.sx > 0 {
            Mode::Sx
        } else {
            Mode::S
        };
        Held {
            latch: self.latch,
            mode,
            level: self.level,
        }
    }
}

impl Listed for Holding {
    ghost latch_of = { λ h. h.latch.0 };

    ghost level_of = { λ h. h.level };

    fn latch(&self) -> Latch {
        self.latch
    }

    fn level(&self) -> Level {
        self.level
    }
}

/// Whether one of these is on the latch.
pub fn holds(held: &[Holding], latch: Latch) -> bool
    ensures { result ≡ is_held latch.0 held.now }
{
    is_among(held, latch)
}

/// The same as `may_take`, for a session's holdings.
pub fn may_add(held: &[Holding], latch: Latch, level: Level) -> Result<(), Against>
    ensures { Allows (is_held latch.0 held.now) level (levels_of held.now) result }
{
    allows(held, latch, level)
}
