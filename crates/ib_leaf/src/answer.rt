//! The answer to a change that came as far as the log.

ghost use Rattle.std.specs.Prelude.{◌≡◌, IfOk, IfErr};
ghost use Rattle.ib_leaf.specs.Ends.{full_answer};

use ib_frames::LogFull;
use ib_map::{Call, Record, Reply};

/// The answer to a change that was committed, at the place of its entry, or found the log full, where so many
/// entries were seen: all that the log had then.
///
/// ```
/// let committed = mtr.commit(rt, Change::Insert { key, value });
/// let answer = changed(call, Reply::Inserted, committed, pass.place());
/// ```
pub fn changed(call: Call, made: Reply, committed: Result<u32, LogFull>, seen: u32) -> Record
    ensures made { IfOk committed (λ place. result
        ≡ record { call = call; reply = made; place = place }) }
    ensures full { IfErr committed (λ full. result ≡ full_answer call full seen) }
{
    match committed {
        Ok(place) => Record {
            call,
            reply: made,
            place,
        },
        Err(full) => Record {
            call,
            reply: Reply::LogFull {
                used: full.used,
                cap: full.cap,
            },
            place: seen,
        },
    }
}
