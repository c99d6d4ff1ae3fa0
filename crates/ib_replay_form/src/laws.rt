//! What holds of raw logs, and of old ones, by their definitions alone.

ghost use Rattle.std.specs.Prelude.{◌≡◌, ℕ, List};
ghost use Rattle.ib_io.specs.Told.{Ending, ends};
ghost use Rattle.ib_io.specs.declared.status.Status.TheVariants.{Done};
ghost use Rattle.ib_logrec.specs.declared.entry.Entry.{Entry};
ghost use Rattle.ib_logrec.specs.Log.{history_of};
ghost use Rattle.ib_old_log.specs.OldEntries.{brought_history};
ghost use Rattle.ib_planned_log.specs.Kept.{IsKeptLog};
ghost use Rattle.ib_replay.specs.Files.{file_of};
ghost use Rattle.ib_replay.specs.OldLogs.{IsBroughtOver};
ghost use Rattle.ib_replay_form.specs.Answers.{AnswersLog};
ghost use Rattle.ib_replay_form.specs.Replaying.{replay_output};
ghost use Rattle.ib_replay.specs.RawLogs.{IsRawLog};

/// The law of what is owed for the file of a lawful log, as a contract: that log and its map, and nothing else.
pub fn log_law()
    ensures { (input : List ℕ) (pages : ℕ) (log : List Entry) (e : Ending) → IsRawLog input pages log
        → AnswersLog input e → e ≡ ends Done (replay_output log) }
{}

/// The law of what `upgrade` writes, as a contract: it is the file of a kept log that has the old changes, with their keys
/// brought over, and `replay` owes of it that log and its map, and nothing else (a file of more than 67,108,864 bytes it
/// does not read).
pub fn upgrade_law()
    ensures kept { (input : List ℕ) (pages : ℕ) (words : List ℕ) → (is : IsBroughtOver input pages words)
        → IsKeptLog pages is.upgraded.log }
    ensures file { (input : List ℕ) (pages : ℕ) (words : List ℕ) → (is : IsBroughtOver input pages words)
        → IsRawLog (file_of pages words) pages is.upgraded.log }
    ensures history { (input : List ℕ) (pages : ℕ) (words : List ℕ) → (is : IsBroughtOver input pages words)
        → history_of is.upgraded.log ≡ brought_history is.upgraded.olds }
    ensures replayed { (input : List ℕ) (pages : ℕ) (words : List ℕ) (e : Ending) → (is : IsBroughtOver input pages words)
        → AnswersLog (file_of pages words) e → e ≡ ends Done (replay_output is.upgraded.log) }
{
    log_law();
}
