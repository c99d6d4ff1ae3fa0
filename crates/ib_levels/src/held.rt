//! What a session holds, and which latch it may take beside it.

ghost use Rattle.ib_levels.specs.Listed.{Allows};
ghost use Rattle.ib_levels.specs.Held.{has_latch, levels_of_held};

use crate::latch::Latch;
use crate::level::{Level, Mode};
use crate::listed::{Against, Listed, allows};

/// One latch of a session's list, or one grant, at the level of its first acquisition.
#[derive(Clone, Copy, PartialEq, Eq, Debug)]
pub struct Held {
    pub latch: Latch,
    pub mode: Mode,
    pub level: Level,
}

impl Listed for Held {
    ghost latch_of = { λ h. h.latch.0 };

    ghost level_of = { λ h. h.level };

    fn latch(&self) -> Latch {
        self.latch
    }

    fn level(&self) -> Level {
        self.level
    }
}

/// Whether a session that holds these, in order of taking, may take the latch at the level: it
/// may where it holds the latch already, or no level held forbids it. Else the answer names the
/// first level that does (sync0debug).
pub fn may_take(held: &[Held], latch: Latch, level: Level) -> Result<(), Against>
    ensures { Allows (has_latch latch.0 held.now) level (levels_of_held held.now) result }
{
    allows(held, latch, level)
}
