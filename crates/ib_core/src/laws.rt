//! The laws of the machine, stated of states rather than of a `Core`.

ghost use Rattle.std.specs.Prelude.{◌≡◌, ◌↔◌, ◌⊎◌, ℕ, ◌≤◌, IsTrue, List, length, sum_by};
ghost use Rattle.ib_word.specs.Word.{word_of};
ghost use Rattle.ib_levels.specs.declared.level.Level.{Level};
ghost use Rattle.ib_levels.specs.declared.level.Mode.{Mode};
ghost use Rattle.ib_levels.specs.Level.{IsOrderly};
ghost use Rattle.ib_levels.specs.Holding.{levels_of};
ghost use Rattle.ib_levels.specs.declared.level.Mode.TheVariants.{Sx, X};
ghost use Rattle.ib_core.specs.declared.event.Answer.TheVariants.{Busy, Granted};
ghost use Rattle.ib_core.specs.declared.phase.Phase.TheVariants.{Free};
ghost use Rattle.ib_core.specs.declared.session.Session.{Session};
ghost use Rattle.ib_core.specs.Sessions.{HasFewReaders, Stands, next_writer_of, readers_of, sx_grants, sx_owner_of, word_on, x_grants, x_owner_of};
ghost use Rattle.ib_core.specs.Good.{IsOwed, owes_raise, owes_raise_ex, owes_signal};
ghost use Rattle.ib_core.specs.Holders.{CanWish, HoldersAreCompatible, IsGrantable, IsTaken, IsNextWriter, OwnsSx, OwnsX};
ghost use Rattle.ib_core.specs.Sleepers.{HasFlagged, MaySleep, NextMaySleep};
ghost use Rattle.ib_core.specs.Takings.{is_given_at, wish};
ghost use Rattle.ib_core.specs.Machine.{CoreState, IsGoodState, marks_at, opening_state, outcome_of};
ghost use Rattle.ib_core.specs.Actions.{AllAmong, Action, IsAmong, state_after};

use crate::machine::MOST_SESSIONS;
use ib_word::MOST_READERS;

/// The law of the latch machine, as a contract: each event leads from any good state, of any
/// number of sessions and latches with few readers each, to a good state, and so does each list
/// of events from the opening one. The other clauses say what a good state is, in plain words.
pub fn core_law()
    ensures each { (state : CoreState) (action : Action) → HasFewReaders state.sessions
        → IsAmong state action → IsGoodState state
        → IsGoodState (outcome_of state action.index action.event).state }
    ensures runs { (sessions latches : ℕ) (actions : List Action) → sessions ≤ MOST_SESSIONS
        → AllAmong (opening_state sessions latches) actions
        → IsGoodState (state_after (opening_state sessions latches) actions) }
    ensures readers { (state : CoreState) (latch : ℕ) → IsGoodState state
        → readers_of latch state.sessions ≤ length state.sessions }
    // Granted modes go together.
    ensures compatible { (state : CoreState) (latch : ℕ) → IsGoodState state
        → HoldersAreCompatible latch state.sessions }
    ensures one_next_writer { (state : CoreState) (latch i j : ℕ) (a b : Session)
        → IsGoodState state → Stands state.sessions i a → Stands state.sessions j b
        → IsNextWriter latch a → IsNextWriter latch b → i ≡ j }
    // The owner of SX, the owner of X and the next writer of a latch.
    ensures sx_owner { (state : CoreState) (latch i : ℕ) (a : Session) → IsGoodState state
        → Stands state.sessions i a → OwnsSx latch a
        → sx_owner_of latch state.sessions ≡ Some i }
    ensures x_owner { (state : CoreState) (latch i : ℕ) (a : Session) → IsGoodState state
        → Stands state.sessions i a → OwnsX latch a → x_owner_of latch state.sessions ≡ Some i }
    ensures next_writer { (state : CoreState) (latch i : ℕ) (a : Session) → IsGoodState state
        → Stands state.sessions i a → IsNextWriter latch a
        → next_writer_of latch state.sessions ≡ Some i }
    // The word is the equation over the counts of all holders.
    ensures counted { (state : CoreState) (latch : ℕ) → IsGoodState state
        → word_on latch state.sessions ≡ word_of (readers_of latch state.sessions)
        (sum_by (sx_grants latch) state.sessions) (sum_by (x_grants latch) state.sessions) }
    ensures orderly { (state : CoreState) (i : ℕ) (a : Session) → IsGoodState state
        → Stands state.sessions i a → IsOrderly (levels_of a.held) }
{}

/// The law of signals, as a contract: none is lost to a session that waits.
pub fn signal_law()
    // Nobody sleeps on the present generation, or may go to sleep on it, while the wish could be
    // granted, unless a signal is owed; the same for a next writer whose readers are gone.
    ensures sleepers { (state : CoreState) (latch i : ℕ) (a : Session) (mode : Mode)
        (level : Level) → IsGoodState state → Stands state.sessions i a
        → MaySleep latch mode level (marks_at state.marks latch).generation a.phase
        → IsGrantable mode latch state.sessions → IsOwed (owes_signal latch) state.sessions }
    ensures next_writers { (state : CoreState) (latch i : ℕ) (a : Session) (level : Level)
        → IsGoodState state → Stands state.sessions i a
        → NextMaySleep latch level (marks_at state.marks latch).ex_generation a.phase
        → readers_of latch state.sessions ≡ 0 → IsOwed (owes_raise_ex latch) state.sessions }
    // The waiters flag of who set it at the present generation is set, or a raise is owed.
    ensures flag { (state : CoreState) (latch i : ℕ) (a : Session) (mode : Mode) (level : Level)
        → IsGoodState state → Stands state.sessions i a
        → HasFlagged latch mode level (marks_at state.marks latch).generation a.phase
        → IsTrue (marks_at state.marks latch).waiters ⊎ IsOwed (owes_raise latch) state.sessions }
{}

/// The law of grants, as a contract: in a good state a wish is refused as busy where its grant
/// does not go with the holders, and nowhere else.
pub fn grant_law()
    // The word gives a first grant exactly where the holders leave the wish grantable.
    ensures word { (state : CoreState) (latch : ℕ) (mode : Mode) → IsGoodState state
        → readers_of latch state.sessions ≤ MOST_READERS
        → (IsTrue (is_given_at mode (word_on latch state.sessions))
        ↔ IsGrantable mode latch state.sessions) }
    // So a session with nothing on the latch, that may take it at the level, gets the grant or
    // finds the latch busy.
    ensures given { (state : CoreState) (latch i : ℕ) (mode : Mode) (level : Level) (a : Session)
        → IsGoodState state → readers_of latch state.sessions ≤ MOST_READERS
        → Stands state.sessions i a → CanWish latch level a → IsGrantable mode latch state.sessions
        → IsTaken (outcome_of state i (wish mode latch level)).answer }
    ensures busy { (state : CoreState) (latch i : ℕ) (mode : Mode) (level : Level) (a : Session)
        → IsGoodState state → Stands state.sessions i a → CanWish latch level a
        → ¬ IsGrantable mode latch state.sessions
        → (outcome_of state i (wish mode latch level)).answer
        ≡ Busy (record { 0 = word_on latch state.sessions }) }
    // Who owns SX or X is never refused a further one.
    ensures further_sx { (state : CoreState) (latch i : ℕ) (level : Level) (a : Session)
        → IsGoodState state → Stands state.sessions i a → a.phase ≡ Free
        → OwnsSx latch a ⊎ OwnsX latch a
        → (outcome_of state i (wish Sx latch level)).answer ≡ Granted }
    ensures further_x { (state : CoreState) (latch i : ℕ) (level : Level) (a : Session)
        → IsGoodState state → readers_of latch state.sessions ≤ MOST_READERS
        → Stands state.sessions i a → a.phase ≡ Free → OwnsSx latch a ⊎ OwnsX latch a
        → IsTaken (outcome_of state i (wish X latch level)).answer }
{}
