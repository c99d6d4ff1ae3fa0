//! The laws of takings and releases, of a session alone at any word and marks: what each takes off
//! the lock word, and what the session has after it.

ghost use Rattle.std.specs.Prelude.{◌≡◌, ℕ, ◌+◌, ◌-◌, ◌<◌, ℤ, pos, ◌+ℤ◌, ◌-ℤ◌, false, IsTrue};
ghost use Rattle.ib_word.specs.Weight.{x_weight};
ghost use Rattle.ib_levels.specs.declared.level.Level.{Level};
ghost use Rattle.ib_levels.specs.declared.level.Mode.{Mode};
ghost use Rattle.ib_levels.specs.declared.level.Mode.TheVariants.{Sx, X};
ghost use Rattle.ib_levels.specs.Holding.{changed_on, without_latch};
ghost use Rattle.ib_core.specs.declared.event.Event.TheVariants.{Again, Ready, Us, Usx, Ux};
ghost use Rattle.ib_core.specs.declared.phase.Phase.TheVariants.{Flagged, Free, OwesLook};
ghost use Rattle.ib_core.specs.declared.session.Session.{Session};
ghost use Rattle.ib_core.specs.declared.session.Marks.{Marks};
ghost use Rattle.ib_core.specs.Sessions.{claims, reads, sx_grants, x_grants};
ghost use Rattle.ib_core.specs.declared.event.Answer.TheVariants.{Granted, Released};
ghost use Rattle.ib_core.specs.Responses.{is_above_0, response};
ghost use Rattle.ib_core.specs.Takings.{first_response, first_weight, holding_too, is_given_at, level_on, one_fewer, one_more, owed_by_s, reserving, wish};
ghost use Rattle.ib_core.specs.Table.{response_of, turn_of};
ghost use Rattle.ib_core.specs.Good.{IsProper};
ghost use Rattle.ib_core.specs.Holders.{CanWish, OwnsSx};
ghost use Rattle.ib_core.specs.Member.{TakesMore};

use ib_word::{X_LOCK_DECR, X_LOCK_HALF_DECR};

/// The law of weights, as a contract: what each taking takes off the lock word, and what each
/// release gives back.
pub fn weight_law()
    // A first grant, by a wish or by one more try of a session that set the waiters flag.
    ensures first { (w : ℤ) (m : Marks) (latch : ℕ) (mode : Mode) (level : Level) (a : Session)
        → CanWish latch level a → IsTrue (is_given_at mode w)
        → TakesMore latch (first_weight mode) (turn_of w m (wish mode latch level) a).session a }
    ensures again { (w : ℤ) (m : Marks) (latch g : ℕ) (mode : Mode) (level : Level) (a : Session)
        → a.phase ≡ Flagged latch mode level g → IsTrue (is_given_at mode w)
        → TakesMore latch (first_weight mode) (turn_of w m (Again latch) a).session a }
    // Again refused, and a look whether the next writer owns X, take nothing.
    ensures refused { (w : ℤ) (m : Marks) (latch g : ℕ) (mode : Mode) (level : Level)
        (a : Session) → a.phase ≡ Flagged latch mode level g → is_given_at mode w ≡ false
        → TakesMore latch 0 (turn_of w m (Again latch) a).session a }
    ensures ready { (w : ℤ) (m : Marks) (latch : ℕ) (a : Session)
        → TakesMore latch 0 (turn_of w m (Ready latch) a).session a }
    // X beside one's own SX.
    ensures upgrade { (w : ℤ) (m : Marks) (latch : ℕ) (level : Level) (a : Session)
        → IsProper a → a.phase ≡ Free → OwnsSx latch a → x_grants latch a ≡ 0
        → IsTrue (is_above_0 w)
        → TakesMore latch X_LOCK_DECR (turn_of w m (wish X latch level) a).session a }
    // A further X takes what `again_x` says.
    ensures further_x { (w : ℤ) (m : Marks) (latch weight : ℕ) (level : Level) (a : Session)
        → IsProper a → a.phase ≡ Free → 0 < x_grants latch a
        → x_weight (x_grants latch a + 1) ≡ x_weight (x_grants latch a) + weight
        → TakesMore latch weight (turn_of w m (wish X latch level) a).session a }
    // A first SX beside one's own X takes HALF, and a further SX nothing.
    ensures sx_beside_x { (w : ℤ) (m : Marks) (latch : ℕ) (level : Level) (a : Session)
        → IsProper a → a.phase ≡ Free → 0 < x_grants latch a → sx_grants latch a ≡ 0
        → TakesMore latch X_LOCK_HALF_DECR (turn_of w m (wish Sx latch level) a).session a }
    ensures further_sx { (w : ℤ) (m : Marks) (latch : ℕ) (level : Level) (a : Session)
        → IsProper a → a.phase ≡ Free → OwnsSx latch a
        → TakesMore latch 0 (turn_of w m (wish Sx latch level) a).session a }
    // S gives back 1, the last SX HALF and an earlier one nothing, and X what `give_x` says.
    ensures s_back { (w : ℤ) (m : Marks) (latch : ℕ) (a : Session) → IsProper a
        → a.phase ≡ Free → 0 < reads latch a
        → TakesMore latch 1 a (turn_of w m (Us latch) a).session }
    ensures last_sx_back { (w : ℤ) (m : Marks) (latch : ℕ) (a : Session) → IsProper a
        → a.phase ≡ Free → sx_grants latch a ≡ 1
        → TakesMore latch X_LOCK_HALF_DECR a (turn_of w m (Usx latch) a).session }
    ensures sx_back { (w : ℤ) (m : Marks) (latch : ℕ) (a : Session) → IsProper a
        → a.phase ≡ Free → 1 < sx_grants latch a
        → TakesMore latch 0 a (turn_of w m (Usx latch) a).session }
    ensures x_back { (w : ℤ) (m : Marks) (latch weight : ℕ) (a : Session) → IsProper a
        → a.phase ≡ Free → 0 < x_grants latch a
        → x_weight (x_grants latch a) ≡ x_weight (x_grants latch a - 1) + weight
        → TakesMore latch weight a (turn_of w m (Ux latch) a).session }
{}

/// The law of sessions, as a contract: the answer, and what the session holds and owes, after each
/// taking and release.
pub fn session_law()
    // A first grant, by a wish or by one more try, is one holding more.
    ensures first { (w : ℤ) (m : Marks) (latch : ℕ) (mode : Mode) (level : Level) (a : Session)
        → CanWish latch level a → IsTrue (is_given_at mode w)
        → response_of w m (wish mode latch level) a
        ≡ first_response mode latch level (w -ℤ pos (first_weight mode))
        (holding_too mode latch level a.held) }
    ensures again { (w : ℤ) (m : Marks) (latch g : ℕ) (mode : Mode) (level : Level) (a : Session)
        → a.phase ≡ Flagged latch mode level g → IsTrue (is_given_at mode w)
        → response_of w m (Again latch) a
        ≡ first_response mode latch level (w -ℤ pos (first_weight mode))
        (holding_too mode latch level a.held) }
    // A further grant is one more on the holding, at the level of the first.
    ensures upgrade { (w : ℤ) (m : Marks) (latch : ℕ) (level : Level) (a : Session)
        → IsProper a → a.phase ≡ Free → OwnsSx latch a → x_grants latch a ≡ 0
        → IsTrue (is_above_0 w) → response_of w m (wish X latch level) a
        ≡ reserving latch (level_on latch level a.held) (w -ℤ pos X_LOCK_DECR)
        (changed_on latch (one_more X) a.held) }
    ensures further_x { (w : ℤ) (m : Marks) (latch : ℕ) (level : Level) (a : Session)
        → IsProper a → a.phase ≡ Free → 0 < x_grants latch a
        → response_of w m (wish X latch level) a
        ≡ response Granted (changed_on latch (one_more X) a.held) Free }
    ensures further_sx { (w : ℤ) (m : Marks) (latch : ℕ) (level : Level) (a : Session)
        → IsProper a → a.phase ≡ Free → 0 < claims latch a
        → response_of w m (wish Sx latch level) a
        ≡ response Granted (changed_on latch (one_more Sx) a.held) Free }
    // S is the only grant of its holding, and the last reader before a next writer owes it a raise.
    ensures s_back { (w : ℤ) (m : Marks) (latch : ℕ) (a : Session) → a.phase ≡ Free
        → 0 < reads latch a → response_of w m (Us latch) a
        ≡ response Released (without_latch latch a.held) (owed_by_s latch (w +ℤ pos 1)) }
    // The last grant of SX and X goes with its holding, and a look is owed; so it is with the last
    // X beside SX.
    ensures last_sx_back { (w : ℤ) (m : Marks) (latch : ℕ) (a : Session) → IsProper a
        → a.phase ≡ Free → sx_grants latch a ≡ 1 → x_grants latch a ≡ 0
        → response_of w m (Usx latch) a
        ≡ response Released (without_latch latch a.held) (OwesLook latch) }
    ensures last_x_back { (w : ℤ) (m : Marks) (latch : ℕ) (a : Session) → IsProper a
        → a.phase ≡ Free → x_grants latch a ≡ 1 → sx_grants latch a ≡ 0
        → response_of w m (Ux latch) a
        ≡ response Released (without_latch latch a.held) (OwesLook latch) }
    ensures last_x_beside_sx { (w : ℤ) (m : Marks) (latch : ℕ) (a : Session) → IsProper a
        → a.phase ≡ Free → x_grants latch a ≡ 1 → 0 < sx_grants latch a
        → response_of w m (Ux latch) a
        ≡ response Released (changed_on latch (one_fewer X) a.held) (OwesLook latch) }
    // An earlier one leaves the holding with one fewer, and owes nothing.
    ensures sx_back { (w : ℤ) (m : Marks) (latch : ℕ) (a : Session) → IsProper a
        → a.phase ≡ Free → 0 < sx_grants latch a → 1 < claims latch a
        → response_of w m (Usx latch) a
        ≡ response Released (changed_on latch (one_fewer Sx) a.held) Free }
    ensures x_back { (w : ℤ) (m : Marks) (latch : ℕ) (a : Session) → IsProper a
        → a.phase ≡ Free → 1 < x_grants latch a → response_of w m (Ux latch) a
        ≡ response Released (changed_on latch (one_fewer X) a.held) Free }
{}
