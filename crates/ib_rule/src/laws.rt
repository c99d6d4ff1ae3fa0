//! What the rule says at every moment, in the words of who uses latches.

ghost use Rattle.std.specs.Prelude.{◌≡◌, ◌≢◌, ◌⊎◌, ℕ, ◌<◌, ◌≤◌, ◌^◌, [], IsTrue, Some, None, false, map, set, slice_index, sum_by};
ghost use Rattle.std.specs.List.{AllByRecursion};
ghost use mathlib.Core.List.{IsPrefix};
ghost use lib.ListN.{get_elem?};
ghost use mathlib.Core.Option.{some};
ghost use Rattle.atomic_table.specs.Table.{State, keeps, stepped};
ghost use Rattle.ib_map.specs.declared.TheConstants.{PAGE_WORDS};
ghost use Rattle.ib_map.specs.Writes.{word_place};
ghost use Rattle.ib_word.specs.Word.{word_in, word_of};
ghost use Rattle.ib_levels.specs.declared.level.Level.{Level};
ghost use Rattle.ib_levels.specs.declared.level.Mode.{Mode};
ghost use Rattle.ib_levels.specs.Holding.{levels_of};
ghost use Rattle.ib_levels.specs.Level.{IsOrderly};
ghost use Rattle.ib_layout.specs.Geometry.{Sizes};
ghost use Rattle.ib_layout.specs.Places.{latches_of, lock_place, page_place, writer_place};
ghost use Rattle.ib_core.specs.declared.event.Event.{Event};
ghost use Rattle.ib_core.specs.declared.phase.Phase.TheVariants.{Free};
ghost use Rattle.ib_core.specs.declared.session.Session.{Session};
ghost use Rattle.ib_core.specs.Good.{IsGood, IsOwed, owes_raise, owes_raise_ex, owes_signal};
ghost use Rattle.ib_core.specs.Holders.{HoldersAreCompatible, IsGrantable, IsNextWriter};
ghost use Rattle.ib_core.specs.Responses.{latch_of};
ghost use Rattle.ib_core.specs.Sessions.{HasFewReaders, Stands, claims, holdings, readers_of, sx_grants, word_on, x_grants};
ghost use Rattle.ib_core.specs.Sleepers.{HasFlagged, MaySleep, NextMaySleep};
ghost use Rattle.ib_core.specs.Table.{turn_of};
ghost use Rattle.ib_core.specs.Turns.{turn_at};
ghost use Rattle.ib_logrec.specs.Log.{by_place, memory_after};
ghost use Rattle.ib_rule.specs.declared.looks.Looks.{Looks};
ghost use Rattle.ib_rule.specs.declared.memory.OpenAppend.{OpenAppend};
ghost use Rattle.ib_rule.specs.declared.view.View.{View};
ghost use Rattle.ib_rule.specs.Conditions.{CanTake};
ghost use Rattle.ib_rule.specs.Roles.{drawn_in, ended_in, live, session_number_of};
ghost use Rattle.ib_rule.specs.Memory.{EndedFact, LoadedFact, entries_of, stored_in};
ghost use Rattle.ib_rule.specs.Rule.{RuleHolds, marks_in, raises_in};
ghost use Rattle.ib_rule.specs.Views.{role_of, turned, with_looks};
ghost use Rattle.ib_rule.specs.Laws.{HoldsSince, IsMade, KeepsLog, OwnsStored, Stores, event_place, event_word, sessions_in_state};

use ib_logrec::Law;

/// The law of latches, as a contract: at every moment, whatever the threads do, words and sessions
/// stand for one good state of the latch machine.
pub fn latch_law<L: Law>()
    ensures good { (sizes : Sizes) (s : State (Unit {0}) View)
        → RuleHolds L.lawful L.opening sizes s
        → IsGood (sessions_in_state s) (marks_in (latches_of sizes) s.words)
        × HasFewReaders (sessions_in_state s) }
    // Each lock word is the equation over the counts of all holders.
    ensures counted { (sizes : Sizes) (s : State (Unit {0}) View) (latch : ℕ)
        → RuleHolds L.lawful L.opening sizes s → latch < latches_of sizes
        → word_in (slice_index s.words (lock_place latch))
        ≡ word_of (readers_of latch (sessions_in_state s))
        (sum_by (sx_grants latch) (sessions_in_state s))
        (sum_by (x_grants latch) (sessions_in_state s)) }
    // Granted modes go together, and there is one next writer at most.
    ensures compatible { (sizes : Sizes) (s : State (Unit {0}) View) (latch : ℕ)
        → RuleHolds L.lawful L.opening sizes s
        → HoldersAreCompatible latch (sessions_in_state s) }
    ensures one_next_writer { (sizes : Sizes) (s : State (Unit {0}) View) (latch i j : ℕ)
        (a b : Session) → RuleHolds L.lawful L.opening sizes s
        → Stands (sessions_in_state s) i a → Stands (sessions_in_state s) j b
        → IsNextWriter latch a → IsNextWriter latch b → i ≡ j }
    // What each session holds is orderly.
    ensures orderly { (sizes : Sizes) (s : State (Unit {0}) View) (i : ℕ) (a : Session)
        → RuleHolds L.lawful L.opening sizes s → Stands (sessions_in_state s) i a
        → IsOrderly (levels_of a.held) }
    // The writer word of a latch is the number of the session that has it in SX or X, or is its
    // next writer, and that has stored it since.
    ensures writer { (sizes : Sizes) (s : State (Unit {0}) View) (latch i : ℕ) (v : View)
        → RuleHolds L.lawful L.opening sizes s → get_elem? s.views i ≡ some v
        → Stores latch v.written → slice_index s.words (writer_place latch) ≡ session_number_of v.role }
    // No generation comes round.
    ensures raises { (sizes : Sizes) (s : State (Unit {0}) View) (latch : ℕ)
        → RuleHolds L.lawful L.opening sizes s → latch < latches_of sizes
        → raises_in s.words latch ≤ 2 ^ 62 }
{}

/// The law of sleepers, as a contract: at every moment no signal is lost to a session that waits.
pub fn sleeper_law<L: Law>()
    // Nobody sleeps on the present generation, or may go to sleep on it, while the wish could be
    // granted, unless a signal is owed.
    ensures sleepers { (sizes : Sizes) (s : State (Unit {0}) View) (latch i : ℕ) (a : Session)
        (mode : Mode) (level : Level) → RuleHolds L.lawful L.opening sizes s
        → Stands (sessions_in_state s) i a
        → MaySleep latch mode level (marks_in (latches_of sizes) s.words latch).generation a.phase
        → IsGrantable mode latch (sessions_in_state s)
        → IsOwed (owes_signal latch) (sessions_in_state s) }
    // The same for a next writer whose readers are gone.
    ensures next_writers { (sizes : Sizes) (s : State (Unit {0}) View) (latch i : ℕ) (a : Session)
        (level : Level) → RuleHolds L.lawful L.opening sizes s
        → Stands (sessions_in_state s) i a
        → NextMaySleep latch level (marks_in (latches_of sizes) s.words latch).ex_generation a.phase
        → readers_of latch (sessions_in_state s) ≡ 0
        → IsOwed (owes_raise_ex latch) (sessions_in_state s) }
    // The waiters flag of who set it at the present generation is set, or a raise is owed.
    ensures flag { (sizes : Sizes) (s : State (Unit {0}) View) (latch i : ℕ) (a : Session)
        (mode : Mode) (level : Level) → RuleHolds L.lawful L.opening sizes s
        → Stands (sessions_in_state s) i a
        → HasFlagged latch mode level (marks_in (latches_of sizes) s.words latch).generation a.phase
        → IsTrue (marks_in (latches_of sizes) s.words latch).waiters
        ⊎ IsOwed (owes_raise latch) (sessions_in_state s) }
{}

/// The law of steps, as a contract: a session that leaves the word of an event as the event leaves it
/// makes just that event of the one latch machine for which words and sessions stand.
pub fn step_law<L: Law>()
    // Afterwards they stand for the state after it.
    ensures kept { (sizes : Sizes) (s : State (Unit {0}) View) (id : ℕ) (v : View) (e : Event)
        (left : ℕ) (looks : Looks) → IsMade L.lawful L.opening sizes s id v e left
        → v.memory.append ≡ None → CanTake e v (event_word e v s)
        → RuleHolds L.lawful L.opening sizes (stepped s (event_place e v) left id []
        (with_looks looks (turned e (event_word e v s) v)) keeps) }
    // The marks of the latch are those that the machine leaves there.
    ensures marks { (sizes : Sizes) (s : State (Unit {0}) View) (id : ℕ) (v : View) (e : Event)
        (left : ℕ) → IsMade L.lawful L.opening sizes s id v e left
        → (turn_of (word_on (latch_of e) (sessions_in_state s))
        (marks_in (latches_of sizes) s.words (latch_of e)) e v.session).marks
        ≡ marks_in (latches_of sizes) (set s.words (event_place e v) left) (latch_of e) }
    // The machine answers what the word found tells.
    ensures answer { (sizes : Sizes) (s : State (Unit {0}) View) (id : ℕ) (v : View) (e : Event)
        (left : ℕ) → IsMade L.lawful L.opening sizes s id v e left
        → (turn_of (word_on (latch_of e) (sessions_in_state s))
        (marks_in (latches_of sizes) s.words (latch_of e)) e v.session).answer
        ≡ (turn_at e (event_word e v s) v.session).answer }
{}

/// The law of memory, as a contract: at every moment there is one lawful log, and words and sessions
/// are true of it.
pub fn memory_law<L: Law>()
    ensures log { (sizes : Sizes) (s : State (Unit {0}) View)
        (kept : RuleHolds L.lawful L.opening sizes s)
        → KeepsLog sizes (L.lawful sizes.pages) s.words kept.log }
    // A page word is that of the page after the whole log, but for those that an open append has
    // stored, whose session owns X on their pages and on the log latch.
    ensures pages { (sizes : Sizes) (s : State (Unit {0}) View)
        (kept : RuleHolds L.lawful L.opening sizes s) (page index : ℕ) → page < sizes.pages
        → index < PAGE_WORDS → ((i : ℕ) (v : View) → get_elem? s.views i ≡ some v
        → stored_in v.memory.append (word_place page index) ≡ false)
        → slice_index s.words (page_place sizes page index)
        ≡ memory_after (by_place L.opening sizes.pages) kept.log (word_place page index) }
    ensures stored { (sizes : Sizes) (s : State (Unit {0}) View) (i : ℕ) (v : View)
        (o : OpenAppend) → RuleHolds L.lawful L.opening sizes s → get_elem? s.views i ≡ some v
        → v.memory.append ≡ Some o → OwnsStored v.session o }
    // What a session has seen is a front of the log, and its own entries are exactly those of its
    // number. So they are of each session that has ended, and a number not drawn has none.
    ensures seen { (sizes : Sizes) (s : State (Unit {0}) View)
        (kept : RuleHolds L.lawful L.opening sizes s) (i : ℕ) (v : View)
        → get_elem? s.views i ≡ some v → IsPrefix v.memory.seen kept.log }
    ensures own { (sizes : Sizes) (s : State (Unit {0}) View)
        (kept : RuleHolds L.lawful L.opening sizes s) (i : ℕ) (v : View)
        → get_elem? s.views i ≡ some v → live v.role ≡ 1
        → entries_of (session_number_of v.role) kept.log ≡ v.memory.own }
    ensures ended { (sizes : Sizes) (s : State (Unit {0}) View)
        (kept : RuleHolds L.lawful L.opening sizes s) (i : ℕ) (v : View)
        → get_elem? s.views i ≡ some v → AllByRecursion (EndedFact kept.log) (ended_in v.role) }
    ensures undrawn { (sizes : Sizes) (s : State (Unit {0}) View)
        (kept : RuleHolds L.lawful L.opening sizes s) (n : ℕ)
        → sum_by drawn_in (map role_of s.views) < n → entries_of n kept.log ≡ [] }
    // No entry of another conflicts with a latch that has been held since a look, and what was
    // loaded of a page that is held is that page after the whole log.
    ensures stable { (sizes : Sizes) (s : State (Unit {0}) View)
        (kept : RuleHolds L.lawful L.opening sizes s) (i : ℕ) (v : View)
        → get_elem? s.views i ≡ some v
        → AllByRecursion (HoldsSince (session_number_of v.role) v.session kept.log)
        v.memory.since }
    ensures loaded { (sizes : Sizes) (s : State (Unit {0}) View)
        (kept : RuleHolds L.lawful L.opening sizes s) (i : ℕ) (v : View)
        → get_elem? s.views i ≡ some v
        → AllByRecursion (LoadedFact (by_place L.opening sizes.pages) v.session kept.log)
        v.memory.loaded }
    // Nobody else holds a latch of which a session owns X, be it a page's or that of the log; and
    // nobody else has SX or X of one that a session has in SX or X, be it the index's.
    ensures x_alone { (sizes : Sizes) (s : State (Unit {0}) View) (latch i j : ℕ) (u v : View)
        → RuleHolds L.lawful L.opening sizes s → get_elem? s.views i ≡ some u
        → get_elem? s.views j ≡ some v → i ≢ j → u.session.phase ≡ Free
        → 0 < x_grants latch u.session → holdings latch v.session ≡ 0 }
    ensures claim_alone { (sizes : Sizes) (s : State (Unit {0}) View) (latch i j : ℕ) (u v : View)
        → RuleHolds L.lawful L.opening sizes s → get_elem? s.views i ≡ some u
        → get_elem? s.views j ≡ some v → i ≢ j → 0 < claims latch u.session
        → claims latch v.session ≡ 0 }
{}
