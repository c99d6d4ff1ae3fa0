//! The rule of levels, along a list of what a session holds.

ghost use Rattle.std.specs.Prelude.{◌≡◌, ℕ};
ghost use Rattle.ib_levels.specs.declared.level.Level.{Level};
ghost use Rattle.ib_levels.specs.Level.{first_against};
ghost use Rattle.ib_levels.specs.Listed.{Allows, is_among, levels_along, refused_by};

use crate::latch::Latch;
use crate::level::Level;

/// A request against the order of levels: the first level held that forbids it, and the level
/// that was wanted (sync0debug).
#[derive(Clone, Copy, PartialEq, Eq, Debug)]
pub struct Against {
    pub held: Level,
    pub wanted: Level,
}

impl Against {
    // The answer to a request at the level wanted, where this is the first level held that
    // forbids it.
    fn unless_none(first: Option<Level>, wanted: Level) -> Result<(), Against>
        ensures { result ≡ refused_by wanted first }
    {
        match first {
            Some(held) => Err(Against { held, wanted }),
            None => Ok(()),
        }
    }
}

// What stands in such a list: something on a latch, at a level.
pub(crate) trait Listed {
    ghost latch_of: { Self → ℕ };

    ghost level_of: { Self → Level };

    fn latch(&self) -> Latch
        ensures { result.0 ≡ latch_of self.now };

    fn level(&self) -> Level
        ensures { result ≡ level_of self.now };
}

// Whether one of these is on the latch.
pub(crate) fn is_among<H: Listed>(held: &[H], latch: Latch) -> bool
    ensures { result ≡ is_among H.latch_of latch.0 held.now }
{
    held.iter().any(|h| h.latch() == latch)
}

// The first level of these that forbids a request at the level wanted.
fn first_forbidding<H: Listed>(held: &[H], wanted: Level) -> Option<Level>
    ensures { result ≡ first_against wanted (levels_along H.level_of held.now) }
{
    held.iter()
        .map(|h| h.level())
        .find(|l| !wanted.may_follow(*l))
}

// Whether a session that holds these, in order of taking, may take the latch at the level: it may
// where it holds the latch already, or no level held forbids it.
pub(crate) fn allows<H: Listed>(held: &[H], latch: Latch, level: Level) -> Result<(), Against>
    ensures { Allows (is_among H.latch_of latch.0 held.now) level
        (levels_along H.level_of held.now) result }
{
    if is_among(held, latch) {
        return Ok(());
    }
    Against::unless_none(first_forbidding(held, level), level)
}
