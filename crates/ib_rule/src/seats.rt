//! The moves of seats: a number drawn, a session ended, and what one has seen told to another.

ghost use Rattle.std.specs.Prelude.{◌≡◌, ◌+◌, ◌<◌, ◌≤◌, true, [], ◌∷◌, length, None};
ghost use Rattle.ib_map.specs.Space.{has_pages};
ghost use mathlib.Core.List.{IsPrefix};
ghost use Rattle.ib_core.specs.Sessions.{idle};
ghost use Rattle.ib_rule.specs.declared.view.Role.TheVariants.{Session};
ghost use Rattle.ib_rule.specs.Roles.{drawn_in, ended_in, session_number_of};
ghost use Rattle.ib_rule.specs.Stores.{IsLook};
ghost use Rattle.ib_rule.specs.Views.{ended_as, longer, plus, seated, seeing, space_at};

use crate::kind::{StepKind, WordOp};
use crate::rule::{Draw, Leave, Telling};
use crate::step::{Board, act};
use crate::view::View;
use atomic_table::Seat;
use ib_layout::DRAWN_PLACE;
use ib_logrec::Law;
use std::marker::Brand;

// Draws the next number, for a new seat: the space's seat is split, and the new one adds 1 to the
// word of sessions drawn.
pub(crate) fn draw<L: Law>(shared: &Board<L>, own: &mut Seat<(), View>) -> Seat<(), View>
    requires table { own.old.table_id ≡ shared.now.table_id }
    requires words { 0 < shared.now.table_id.words }
    requires space { own.old.me ≡ (
      space_at (drawn_in own.old.me.0.role)
          (ended_in own.old.me.0.role) own.old.me.0.grants,
      [],
    ) }
    requires room { drawn_in own.old.me.0.role < 1024 }
    ensures own { (own.new.table_id ≡ own.old.table_id)
        × (own.new.me ≡ (
          space_at (drawn_in own.old.me.0.role + 1) (ended_in own.old.me.0.role)
              own.old.me.0.grants,
          [],
        )) }
    ensures new { (result.table_id ≡ own.old.table_id)
        × (result.me ≡ (seated (Session (drawn_in own.old.me.0.role + 1)), [])) }
{
    let mut seat = shared.split_seat::<Draw>(own);
    act::<L, Brand>(
        shared,
        &mut seat,
        DRAWN_PLACE,
        WordOp::Add(1),
        StepKind::Enter,
    );
    seat
}

// Ends a session: its seat is joined into the space's, which looks at the number of sessions drawn.
pub(crate) fn leave<L: Law>(shared: &Board<L>, own: &mut Seat<(), View>, other: Seat<(), View>)
    requires table { (own.old.table_id ≡ shared.now.table_id)
        × (other.table_id ≡ shared.now.table_id) }
    requires words { 0 < shared.now.table_id.words }
    requires space { own.old.me ≡ (
      space_at (drawn_in own.old.me.0.role)
          (ended_in own.old.me.0.role) own.old.me.0.grants,
      [],
    ) }
    requires closed { other.me.0.memory.append ≡ None }
    requires other { (other.me.0.role ≡ Session (session_number_of other.me.0.role))
        × (other.me.0.session ≡ idle) × (other.me.1 ≡ []) }
    ensures own { (own.new.table_id ≡ own.old.table_id)
        × (own.new.me ≡ (
          space_at (drawn_in own.old.me.0.role)
              (ended_as other.me.0 ∷ ended_in own.old.me.0.role)
              (plus own.old.me.0.grants other.me.0.grants),
          [],
        )) }
    ensures few { length (ended_in own.old.me.0.role) + 1 ≤ drawn_in own.old.me.0.role }
{
    shared.join_seat::<Leave>(own, other);
    act::<L, Brand>(shared, own, DRAWN_PLACE, WordOp::Load, StepKind::Count);
}

// Tells one session what another has seen: a note is split off the one and joined into the other,
// which looks at the table before and after, since a join tells nothing.
pub(crate) fn tell<L: Law>(shared: &Board<L>, to: &mut Seat<(), View>, from: &mut Seat<(), View>)
    requires table { (to.old.table_id ≡ shared.now.table_id)
        × (from.old.table_id ≡ shared.now.table_id) }
    requires words { 0 < shared.now.table_id.words }
    requires pages { has_pages shared.now.key.pages ≡ true }
    requires session { to.old.me.0.role ≡ Session (session_number_of to.old.me.0.role) }
    requires number { 0 < session_number_of to.old.me.0.role }
    ensures to { (to.new.table_id ≡ to.old.table_id) × (to.new.id ≡ to.old.id)
        × (to.new.me ≡ (
          seeing (longer to.old.me.0.memory.seen from.old.me.0.memory.seen)
              to.old.me.0,
          to.old.me.1,
        )) }
    ensures from { (from.new.table_id ≡ from.old.table_id) × (from.new.id ≡ from.old.id)
        × (from.new.me ≡ from.old.me) }
    ensures looked { IsLook shared.now.key (L.lawful shared.now.key.pages) to.old.me.0
        to.new.me.0.memory.seen }
    ensures theirs { IsPrefix from.old.me.0.memory.seen to.new.me.0.memory.seen }
{
    act::<L, Brand>(shared, to, DRAWN_PLACE, WordOp::Load, StepKind::Meet);
    let note = shared.split_seat::<Telling>(from);
    shared.join_seat::<Telling>(to, note);
    act::<L, Brand>(shared, to, DRAWN_PLACE, WordOp::Load, StepKind::Meet);
}
