//! What holds of a script by its definitions alone.

ghost use Rattle.std.specs.Prelude.{◌≡◌, ◌++◌, ℕ, List};
ghost use Rattle.ib_io.specs.Told.{Ending, ends};
ghost use Rattle.ib_io.specs.declared.status.Status.TheVariants.{Done};
ghost use Rattle.ib_replay.specs.RawLogs.{IsRawLog};
ghost use Rattle.ib_script.specs.Script.{ScriptValue};
ghost use Rattle.ib_runs.specs.Alone.{AreNeverFull, IsAlone};
ghost use Rattle.ib_text.specs.Output.{map_text, sessions_from};
ghost use Rattle.ib_image_form.specs.Copying.{IsImageOfRun};
ghost use Rattle.ib_tool.specs.Answers.{AnswersInput};
ghost use Rattle.ib_tool.specs.Texts.{IsRawText, IsRunText, map_in};
ghost use Rattle.ib_tool.specs.declared.form.Form.TheVariants.{Replay, Restore};

use ib_image_form::image_law;
use ib_replay_form::log_law;
use ib_runs::alone_law;

/// The law of a session alone, as a contract: where no other session of a script has a command, its runs in which no log
/// gets full have one text.
pub fn text_law()
    ensures { (script : ScriptValue) (place : ℕ) (text other : List ℕ) → IsAlone place script.commands
        → (run : IsRunText script text) → (again : IsRunText script other)
        → AreNeverFull run.runs → AreNeverFull again.runs → text ≡ other }
{
    alone_law();
}

/// The law of what `raw` writes, as a contract: it is the file of a lawful log, and `replay` prints of it what `run` prints
/// of the same run behind its sessions: the log, and the map in the end.
pub fn raw_law()
    ensures lawful { (script : ScriptValue) (bytes : List ℕ) → (raw : IsRawText script bytes)
        → IsRawLog bytes script.sizes.pages raw.log }
    ensures replayed { (script : ScriptValue) (bytes : List ℕ) (e : Ending) → (raw : IsRawText script bytes)
        → AnswersInput Replay bytes e → (e.status ≡ Done) × IsRunText script (sessions_from 1 raw.runs ++ e.text) }
{
    log_law();
}

/// The law of what `image` writes, as a contract: `restore` prints of it the map that the pages hold after the whole log of
/// the run, which is what `run` prints of the same run in the end.
pub fn restored_law()
    ensures { (script : ScriptValue) (bytes : List ℕ) (e : Ending) → (image : IsImageOfRun script bytes)
        → AnswersInput Restore bytes e → e ≡ ends Done (map_text (map_in script.sizes image.log)) }
{
    image_law();
}
