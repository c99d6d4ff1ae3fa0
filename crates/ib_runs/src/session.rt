//! A session's commands, one after another.

ghost use Rattle.std.specs.Prelude.{◌≡◌, All, Bool, [], OnOk};
ghost use Rattle.ib_rule.specs.Pass.{IsAtRest};
ghost use Rattle.ib_rule.specs.Views.{no_grants};
ghost use Rattle.ib_runs.specs.Answers.{IsWhole, answers_of, no_answers};
ghost use Rattle.ib_runs.specs.Sessions.{AreFew, HasAnswered, TakesGrants};
ghost use Rattle.ib_runs.specs.Shared.{calls_under};
ghost use Rattle.ib_runs.specs.Steps.{HasOneMore, HasReadKeys, IsStillSession, KnownLaws, MayAnswer};

use crate::access::Access;
use crate::gate::Gate;
use crate::session_out::SessionOut;
use crate::shared::Shared;
use ib_map::{Call, Chunks, Key, OutOfMemory, Record, Reply, is_below};
use ib_rule::Pass;
use std::sync::Wait;

/// How many chunks each call of a scan has room for.
pub const SCAN_CHUNKS: usize = 64;

/// .. and how many pairs: more than so many leaves have, so that it is chunk places that a call lacks.
pub const SCAN_PAIRS: usize = 4096;

const _: () = prove!(SCAN_CHUNKS == 64 && SCAN_PAIRS == 4096);

// What the laws of what is shared say, at the sizes of its space.
fn laws_of<S: Shared>(shared: &S)
    ensures { KnownLaws (calls_under S.law (S.space shared.now).sizes) S.root (S.space shared.now).sizes }
{
    S::laws();
    // For the proof: which numbers of pages and of words there are.
    let sizes = shared.geometry();
    let _ = sizes.pages();
    let _ = sizes.log_words();
}

// Appends the chunks from `low` to `high`, by as many calls as it takes: each goes on where the one before had no room.
// From a key to a lower one there is none, and nothing is looked at.
fn read_all<S: Shared, R: Wait>(
    rt: &R,
    shared: &S,
    pass: &mut Pass,
    low: Key,
    high: Key,
    chunks: &mut Chunks,
) -> Result<(), OutOfMemory>
    requires may { MayAnswer (calls_under S.law) (S.space shared.now) chunks.old pass.old }
    ensures still { IsStillSession (S.space shared.now) chunks.new pass.old pass.new }
    ensures read { OnOk result (HasReadKeys (calls_under S.law (S.space shared.now).sizes) S.root (S.space shared.now).sizes low high
        chunks.old chunks.new pass.old pass.new) }
{
    if is_below(high, low) {
        return Ok(());
    }
    laws_of(shared);
    let mut rest = S::begin(low, high);
    loop {
        chunks.reserve(SCAN_CHUNKS, SCAN_PAIRS)?;
        if shared.scan(rt, pass, &mut rest, chunks).is_ok() {
            return Ok(());
        }
    }
}

// A scan, by the chunks that it has appended.
fn answer_scan<S: Shared, R: Wait>(
    rt: &R,
    shared: &S,
    pass: &mut Pass,
    low: Key,
    high: Key,
    out: &mut SessionOut,
) -> Result<(), OutOfMemory>
    requires may { MayAnswer (calls_under S.law) (S.space shared.now) out.old.chunks pass.old }
    requires whole { IsWhole out.old }
    ensures still { IsStillSession (S.space shared.now) out.new.chunks pass.old pass.new }
    ensures more { OnOk result ((guesses : Bool) → HasOneMore (calls_under S.law (S.space shared.now).sizes) guesses
        (S.space shared.now).sizes (Call.Scan low high) out.old out.new pass.old pass.new) }
{
    laws_of(shared);
    let before = out.chunks.list().len();
    let pairs_before = out.chunks.pairs().len();
    read_all(rt, shared, pass, low, high, &mut out.chunks)?;
    // For the proof: there are fewer than 2^32 of either.
    let _ = out.chunks.room();
    out.records.push(Record {
        call: Call::Scan { low, high },
        reply: Reply::Scanned {
            chunks: (out.chunks.list().len() - before) as u32,
            pairs: (out.chunks.pairs().len() - pairs_before) as u32,
        },
        place: pass.place(),
    })?;
    Ok(())
}

// One command.
fn answer<S: Shared, A: Access<S>, R: Wait>(
    rt: &R,
    access: &A,
    seat: &mut A::Seat,
    shared: &S,
    pass: &mut Pass,
    call: Call,
    out: &mut SessionOut,
) -> Result<(), OutOfMemory>
    requires sits { A.sits access.now seat.old }
    requires serves { A.serves access.now (S.space shared.now).sizes.pages }
    requires taken { S.takes call }
    requires may { MayAnswer (calls_under S.law) (S.space shared.now) out.old.chunks pass.old }
    requires whole { IsWhole out.old }
    ensures sits { A.sits access.now seat.new }
    ensures still { IsStillSession (S.space shared.now) out.new.chunks pass.old pass.new }
    ensures more { OnOk result (HasOneMore (calls_under S.law (S.space shared.now).sizes) A.guesses (S.space shared.now).sizes call
        out.old out.new pass.old pass.new) }
{
    // For the proof: what records that fit say.
    S::laws();
    let record = match call {
        Call::Get { key } => access.get(rt, seat, shared, pass, key),
        Call::Insert { key, value } => access.insert(rt, seat, shared, pass, key, value),
        Call::Delete { key } => access.delete(rt, seat, shared, pass, key),
        Call::Scan { low, high } => return answer_scan(rt, shared, pass, low, high, out),
    };
    out.records.push(record)?;
    Ok(())
}

/// Answers the commands of a session, one after another, with the gate before each and after the last, where the
/// session holds nothing. Each call is one on what is shared, which reaches its leaf as `access` says; a scan takes as
/// many as its chunks need, each with room for `SCAN_CHUNKS` chunks and `SCAN_PAIRS` pairs: it goes on where the last one
/// had no room (row0sel, `row_search_mvcc`), in an index from the leaf that is kept. No answer is older than what its own
/// call found, and no two calls share a look at the log's end.
/// All together take no more grants than nine for each lookup, 128 for each change, one more for each of these where it
/// goes by a guess first, and what a scan may take for each scan, so no call is refused for their count; and where there
/// is no change, no fewer than two for each lookup, or one where it goes by a guess first, and two for each scan, but a
/// scan from a key down to a lower one.
///
/// Refused for want of memory alone. Then too the session holds nothing, but nothing is said of `out`.
pub fn run_session<S: Shared, A: Access<S>, G: Gate, R: Wait>(
    rt: &R,
    access: &A,
    seat: &mut A::Seat,
    shared: &S,
    pass: &mut Pass,
    commands: &[Call],
    gate: &G,
    out: &mut SessionOut,
) -> Result<(), OutOfMemory>
    requires sits { A.sits access.now seat.old }
    requires serves { A.serves access.now (S.space shared.now).sizes.pages }
    requires taken { All S.takes commands.now }
    requires rest { IsAtRest (S.space shared.now) pass.old }
    requires nothing_seen { pass.old.view.memory.seen ≡ [] }
    requires no_grants { pass.old.view.grants ≡ no_grants }
    requires few { AreFew commands.now }
    requires empty { out.old ≡ no_answers }
    ensures sits { A.sits access.now seat.new }
    ensures rest { IsAtRest (S.space shared.now) pass.new }
    ensures number { pass.new.number ≡ pass.old.number }
    ensures answered { OnOk result (HasAnswered (calls_under S.law (S.space shared.now).sizes) (S.space shared.now).sizes
        commands.now (answers_of out.new) pass.old pass.new) }
    ensures takes { OnOk result (TakesGrants A.guesses commands.now pass.old pass.new) }
    ensures whole { OnOk result (IsWhole out.new) }
{
    laws_of(shared);
    // For the proof: what has seen no entry has made none.
    let _ = pass.made();
    let session = pass.number();
    let mut number = 0;
    for call in commands {
        number += 1;
        gate.pause(rt, pass, session, number);
        answer(rt, access, seat, shared, pass, *call, out)?;
    }
    gate.pause(rt, pass, session, number + 1);
    Ok(())
}
