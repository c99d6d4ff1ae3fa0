//! What holds of a script by its definitions alone.

ghost use Rattle.std.specs.Prelude.{◌≡◌, ℕ, List};
ghost use Rattle.ib_map.specs.Runs.{Runs};
ghost use Rattle.ib_map.specs.declared.call.Call.{Call};
ghost use Rattle.ib_layout.specs.Geometry.{Sizes};
ghost use Rattle.ib_logrec.specs.declared.entry.Entry.{Entry};
ghost use Rattle.ib_logrec.specs.Log.{by_place, history_of};
ghost use Rattle.ib_tree.specs.Logs.{pages_after};
ghost use Rattle.ib_tree.specs.TreeLog.{opening};
ghost use Rattle.ib_runs.specs.Alone.{AreNeverFull, IsAlone};
ghost use Rattle.ib_runs.specs.Outcomes.{IsOutcome};

/// The law of a session alone, as a contract: where no other session has a command, and no log gets full, all
/// outcomes are one. The sessions are answered the same, the chunks of each scan and the counts of each refused insert
/// with it; the logs have the same history; and the pages after them are the same.
///
/// Of a log that gets full nothing is said: a change is refused where not every entry has room, and only there, but
/// how many words the entries before it have is left open by the definitions, as words that no record of a page uses may be
/// written or not.
pub fn alone_law()
    ensures { (sizes : Sizes) (commands : List (List Call)) (place : ℕ) (runs others : Runs) (log other : List Entry)
        → IsAlone place commands
        → IsOutcome sizes commands runs log → IsOutcome sizes commands others other
        → AreNeverFull runs → AreNeverFull others
        → (runs ≡ others) × (history_of log ≡ history_of other)
        × (pages_after (by_place opening sizes.pages) log ≡ pages_after (by_place opening sizes.pages) other) }
{}
