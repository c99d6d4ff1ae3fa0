//! The rule of the table, generic in the law of logs, and the moves of seats.

use crate::view::View;
use atomic_table::{Join, Split, TableRule};
use ib_layout::Geometry;
use ib_logrec::Law;
use std::marker::PhantomData;

/// The rule of a space whose logs are lawful by `L`.
pub struct Ruled<L> {
    law: PhantomData<L>,
}

impl<L: Law> TableRule<(), View, Geometry> for Ruled<L> {
    ghost use Rattle.std.specs.Prelude.{[]};
    ghost use Rattle.ib_rule.specs.Rule.{RuleHolds};
    ghost use Rattle.ib_rule.specs.Views.{space_view};

    ghost holds = { λ sizes s. RuleHolds L.lawful L.opening sizes s };

    ghost first = { λ _. space_view 0 [] };
}

/// The space draws the next number: its seat keeps the count, and the new one has the number.
pub struct Draw;

impl Split<View> for Draw {
    ghost use Rattle.ib_rule.specs.Views.{one_drawn, newcomer};

    ghost left = { one_drawn };

    ghost right = { newcomer };
}

/// A session ends: its lists go to the space's seat.
pub struct Leave;

impl Join<View> for Leave {
    ghost use Rattle.ib_rule.specs.Views.{with_ended, nobody};

    ghost both = { with_ended };

    ghost spent = { nobody };
}

/// A note of what a session has seen goes to another.
pub struct Telling;

impl Split<View> for Telling {
    ghost use Rattle.ib_rule.specs.Views.{note_of};

    ghost left = { λ v. v };

    ghost right = { note_of };
}

impl Join<View> for Telling {
    ghost use Rattle.ib_rule.specs.Views.{with_note, nobody};

    ghost both = { with_note };

    ghost spent = { nobody };
}
