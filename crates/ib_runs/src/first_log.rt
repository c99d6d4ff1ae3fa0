//! How long a log a script is run on first, and whether that was too short.

ghost use Rattle.std.specs.Prelude.{◌≡◌, ◌⊎◌, ◌<◌, ◌≤◌, ◌↔◌, List, false, map, true};
ghost use Rattle.std.specs.List.{list_any};
ghost use Rattle.ib_map.specs.declared.call.Call.{Call};
ghost use Rattle.ib_runs.specs.Alone.{AreNeverFull, tells_full};
ghost use Rattle.ib_runs.specs.Answers.{answers_of};
ghost use Rattle.ib_runs.specs.Outcomes.{HasRanUnder};
ghost use Rattle.ib_runs.specs.Shared.{calls_under};

use crate::ran::Ran;
use crate::session_out::SessionOut;
use crate::shared::Shared;
use ib_layout::Geometry;
use ib_map::{Call, Record, Reply};
use ib_rule::ENTRY_WORDS;
use ib_script::Script;

// How many changes the commands ask for.
fn change_count(commands: &[Call]) -> usize {
    commands
        .iter()
        .filter(|call| matches!(call, Call::Insert { .. } | Call::Delete { .. }))
        .count()
}

// The sizes with which a script is run first: its pages, and a log that its changes seldom fill, where its own is
// longer.
pub(crate) fn first_sizes<S: Shared>(script: &Script) -> Geometry
    ensures pages { result.pages ≡ script.now.sizes.pages }
    ensures log { result.log_words ≤ script.now.sizes.log_words }
{
    let sizes = script.geometry();
    // An append asks for so much room.
    let mut words = ENTRY_WORDS;
    for before in 0..script.sessions() {
        let changes = change_count(script.commands(before + 1));
        words = words.saturating_add(S::CHANGE_WORDS.saturating_mul(changes));
    }
    let words = words.min(sizes.log_words() as usize) as u32;
    match Geometry::new(sizes.pages(), words) {
        Ok(first) => first,
        Err(_) => sizes,
    }
}

// Whether one of these records tells of a full log.
fn tells_full(records: &[Record]) -> bool
    ensures { result ≡ list_any (λ r. tells_full r.reply) records.now }
{
    records
        .iter()
        .any(|record| matches!(record.reply, Reply::LogFull { .. }))
}

// Whether one of these sessions was told of a full log, by their records as they are kept.
fn any_tells_full(sessions: &[SessionOut]) -> bool
    ensures { result ≡ list_any (λ out. list_any (λ r. tells_full r.reply) out.records) sessions.now }
{
    sessions.iter().any(|out| tells_full(out.records()))
}

// Whether one of these sessions was told of a full log.
pub(crate) fn met_full_log(sessions: &[SessionOut]) -> bool
    ensures { (result ≡ false) ↔ AreNeverFull (map answers_of sessions.now) }
{
    any_tells_full(sessions)
}

// Whether what came of a run in the first sizes may come of one in the script's: they are the same, or no log got
// full. Where the first log was shorter, and got full, it is not settled.
pub(crate) fn is_settled<S: Shared>(ran: &Ran, first: Geometry, sizes: Geometry) -> bool
    requires pages { first.pages ≡ sizes.pages }
    requires log { first.log_words ≤ sizes.log_words }
    ensures settled { result ≡ true → (commands : List (List Call)) (of_first : HasRanUnder (calls_under S.law) first commands ran.now)
        → (ran_is : HasRanUnder (calls_under S.law) sizes commands ran.now) × (ran_is.log ≡ of_first.log) }
    ensures told { result ≡ true → (first.log_words ≡ sizes.log_words) ⊎ AreNeverFull (map answers_of ran.now.sessions.items) }
    ensures again { result ≡ false → (first.log_words < sizes.log_words) × (AreNeverFull (map answers_of ran.now.sessions.items) → ⊥) }
{
    // For the proof: a reply that does not tell of a full log says the same beside a longer one.
    S::laws();
    first.log_words() == sizes.log_words() || !met_full_log(&ran.sessions)
}
