//! The laws of one event, of a session alone at any word and marks: which word it is a step on,
//! what it leaves there, and what it owes.

ghost use Rattle.std.specs.Prelude.{◌≡◌, ◌≢◌, ◌⊎◌, ℕ, ◌+◌, ◌-◌, ◌<◌, ◌≤◌, ℤ, false, List, slice_set};
ghost use Rattle.ib_levels.specs.declared.level.Level.{Level};
ghost use Rattle.ib_levels.specs.declared.level.Mode.{Mode};
ghost use Rattle.ib_levels.specs.declared.holding.Holding.{Holding};
ghost use Rattle.ib_levels.specs.Holding.{on};
ghost use Rattle.ib_core.specs.declared.event.Event.{Event};
ghost use Rattle.ib_core.specs.declared.event.Event.TheVariants.{Clear, Flag, Raise};
ghost use Rattle.ib_core.specs.declared.latch_word.LatchWord.TheVariants.{ExGeneration, Generation, Lock, Waiters};
ghost use Rattle.ib_core.specs.declared.phase.Phase.TheVariants.{Armed, OwesClear, OwesRaise, OwesRaiseEx};
ghost use Rattle.ib_core.specs.declared.session.Session.{Session};
ghost use Rattle.ib_core.specs.declared.session.Marks.{Marks};
ghost use Rattle.ib_core.specs.Sessions.{HasFewReaders, Stands, holdings, reads, taken, word_on};
ghost use Rattle.ib_core.specs.Responses.{latch_of};
ghost use Rattle.ib_core.specs.Table.{turn_of};
ghost use Rattle.ib_core.specs.Good.{IsGood, IsProper};
ghost use Rattle.ib_core.specs.Member.{SameSum, TakesMore};
ghost use Rattle.ib_core.specs.Turns.{Leaves, Tells, mark_in, turn_at, with_mark, word_for, writes_mark};
ghost use Rattle.ib_core.specs.Debts.{PaysFor};

/// The law of one event, as a contract: it is a step on one word of its latch, and leads from any
/// good state to a good state.
pub fn turn_law()
    // The answer and the session after it are told by the one word that the event reads ..
    ensures reads_one { (event : Event) (n : ℕ) (w : ℤ) (m : Marks) (a : Session) → IsProper a
        → Tells (word_for event a) n w m
        → ((turn_at event n a).answer ≡ (turn_of w m event a).answer)
        × ((turn_at event n a).session ≡ (turn_of w m event a).session) }
    // .. the marks change in that word alone ..
    ensures marks_one { (event : Event) (n : ℕ) (w : ℤ) (m : Marks) (a : Session)
        → Tells (word_for event a) n w m
        → with_mark (word_for event a) (mark_in (word_for event a) (turn_at event n a).marks) m
        ≡ (turn_of w m event a).marks }
    // .. and what the session takes off the lock word changes by an event on it alone.
    ensures lock_alone { (event : Event) (w : ℤ) (m : Marks) (a : Session) → IsProper a
        → word_for event a ≢ Lock
        → taken (latch_of event) (turn_of w m event a).session ≡ taken (latch_of event) a }
    // What the session has on other latches stays.
    ensures elsewhere { (event : Event) (w : ℤ) (m : Marks) (a : Session) (latch : ℕ)
        (f : Holding → ℕ) → IsProper a → latch_of event ≢ latch
        → on latch f (turn_of w m event a).session.held ≡ on latch f a.held }
    // A holding is one of S, or one of SX and X, for as long as it stands.
    ensures class { (event : Event) (w : ℤ) (m : Marks) (a : Session) → IsProper a
        → 0 < holdings (latch_of event) a
        → 0 < holdings (latch_of event) (turn_of w m event a).session
        → reads (latch_of event) (turn_of w m event a).session ≡ reads (latch_of event) a }
    // The law of states, of any list of sessions and any marks.
    ensures kept { (event : Event) (sessions : List Session) (m m' : ℕ → Marks) (i : ℕ)
        (a : Session) → HasFewReaders sessions → IsGood sessions m → Stands sessions i a
        → m' (latch_of event)
        ≡ (turn_of (word_on (latch_of event) sessions) (m (latch_of event)) event a).marks
        → ((l : ℕ) → latch_of event ≢ l → m' l ≡ m l)
        → IsGood (slice_set sessions i
        (turn_of (word_on (latch_of event) sessions) (m (latch_of event)) event a).session) m' }
{}

/// The law of words, as a contract: what an event leaves as its word is what the machine has there
/// after it.
pub fn leaves_law()
    // The word that is left is the machine's after the event.
    ensures leaves { (event : Event) (n n' : ℕ) (w w' : ℤ) (m : Marks) (a : Session) → IsProper a
        → Tells (word_for event a) n w m → Leaves (word_for event a) event a n n'
        → SameSum (latch_of event) w a w' (turn_of w m event a).session
        → Tells (word_for event a) n' w' (turn_of w m event a).marks }
    // Each word but the lock word is left as it is found, but by a flag, a clear and a raise.
    ensures loads { (event : Event) (n : ℕ) (a : Session) → word_for event a ≢ Lock
        → writes_mark event ≡ false → (word_for event a ≡ Waiters → n ≤ 1)
        → Leaves (word_for event a) event a n n }
    ensures flags { (latch n g : ℕ) (mode : Mode) (level : Level) (a : Session)
        → a.phase ≡ Armed latch mode level g → Leaves Waiters (Flag latch) a n 1 }
    ensures clears { (latch n : ℕ) (a : Session) → a.phase ≡ OwesClear latch
        → Leaves Waiters (Clear latch) a n 0 }
    ensures raises { (latch n : ℕ) (a : Session) → a.phase ≡ OwesRaise latch
        → Leaves Generation (Raise latch) a n (n + 1) }
    ensures ex_raises { (latch n : ℕ) (a : Session) → a.phase ≡ OwesRaiseEx latch
        → Leaves ExGeneration (Raise latch) a n (n + 1) }
    // The lock word goes down by what the session takes off it more, and up by what it gives back.
    ensures takes { (event : Event) (n weight : ℕ) (a : Session) → weight ≤ n
        → TakesMore (latch_of event) weight (turn_at event n a).session a
        → Leaves Lock event a n (n - weight) }
    ensures gives { (event : Event) (n weight : ℕ) (a : Session)
        → TakesMore (latch_of event) weight a (turn_at event n a).session
        → Leaves Lock event a n (n + weight) }
{}

/// The law of raises, as a contract: each is owed, and paid by a grant. So a latch is raised no
/// more often than its grants were taken.
pub fn debt_law()
    ensures paid { (event : Event) (w : ℤ) (m : Marks) (a : Session) → IsProper a
        → PaysFor event a m (turn_of w m event a) }
    // A generation rises by 1, by a session that owes the raise, or stays.
    ensures generation { (event : Event) (w : ℤ) (m : Marks) (a : Session)
        → ((turn_of w m event a).marks.generation ≡ m.generation)
        ⊎ ((a.phase ≡ OwesRaise (latch_of event))
        × ((turn_of w m event a).marks.generation ≡ m.generation + 1)) }
    ensures ex_generation { (event : Event) (w : ℤ) (m : Marks) (a : Session)
        → ((turn_of w m event a).marks.ex_generation ≡ m.ex_generation)
        ⊎ ((a.phase ≡ OwesRaiseEx (latch_of event))
        × ((turn_of w m event a).marks.ex_generation ≡ m.ex_generation + 1)) }
{}
