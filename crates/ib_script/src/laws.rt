//! What holds of scripts by their definitions alone.

ghost use Rattle.std.specs.Prelude.{◌≡◌, ◌++◌, ℕ, Ok, Some, codes, decimal};
ghost use Rattle.ib_map.specs.Keys.{MapKey};
ghost use Rattle.ib_map.specs.Replies.{change_of};
ghost use Rattle.ib_map.specs.declared.call.Call.{Call};
ghost use Rattle.ib_map.specs.declared.call.Call.TheVariants.{Insert, Delete, Get, Scan};
ghost use Rattle.ib_map.specs.declared.call.Change.{Change};
ghost use Rattle.ib_text.specs.Keys.{key_text};
ghost use Rattle.ib_text.specs.Output.{call_text, change_text};
ghost use Rattle.ib_script.specs.Script.{IsCallInRange, reading_of};
ghost use Rattle.ib_script.specs.declared.script_line.ScriptLine.TheVariants.{Command};

/// The law of what is printed of a command, as a contract: read again as a line of a script, it is that command. So is a
/// change as the log has it, the command that asked for it. Which word each kind of command has is said too.
pub fn script_law()
    ensures call { (call : Call) → IsCallInRange call → reading_of (call_text call) ≡ Ok (Command call) }
    ensures change { (call : Call) (change : Change) → IsCallInRange call → change_of call ≡ Some change
        → reading_of (change_text change) ≡ Ok (Command call) }
    // The words themselves, so that no two tables change together.
    ensures insert { (key : MapKey) (value : ℕ) → call_text (Insert key value) ≡ codes "insert " ++ (key_text key ++ codes " " ++ decimal value) }
    ensures delete { (key : MapKey) → call_text (Delete key) ≡ codes "delete " ++ key_text key }
    ensures get { (key : MapKey) → call_text (Get key) ≡ codes "get " ++ key_text key }
    ensures scan { (low high : MapKey) → call_text (Scan low high) ≡ codes "scan " ++ key_text low ++ codes " " ++ key_text high }
{}
