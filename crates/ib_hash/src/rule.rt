//! The rule of the table of guesses, and the moves of its seats.

use crate::view::GuessSteps;
use atomic_table::{Join, Split, TableRule};

/// Each word is 0 or a page of the space. The key of the table is how many pages that has.
pub struct GuessRule;

impl TableRule<(), GuessSteps, u32> for GuessRule {
    ghost use Rattle.ib_hash.specs.Rule.{AreGuesses, no_steps};

    ghost holds = { λ pages s. AreGuesses pages s.words };

    ghost first = { λ _. no_steps };
}

/// A pass is drawn: it has made no step.
pub struct Draw;

impl Split<GuessSteps> for Draw {
    ghost use Rattle.ib_hash.specs.Rule.{no_steps};

    ghost left = { λ v. v };

    ghost right = { λ _. no_steps };
}

/// A pass is given back: its steps are forgotten.
pub struct Leave;

impl Join<GuessSteps> for Leave {
    ghost use Rattle.ib_hash.specs.Rule.{no_steps};

    ghost both = { λ v _. v };

    ghost spent = { no_steps };
}
