//! How a commit that does not wait ended at the log.

ghost use Rattle.std.specs.Prelude.{◌≡◌, Err, IfOk, IfErr};
ghost use Rattle.ib_latch.specs.declared.tries.TryFault.{TryFault as TryFaultValue};
ghost use Rattle.ib_mtr.specs.declared.commit_nowait.CommitFault.TheVariants.{LogRefused};
ghost use Rattle.ib_cursor.specs.Contention.{fault_on};
ghost use Rattle.ib_index.specs.Refusals.{by_log};

use ib_cursor::NowaitFault;
use ib_frames::LogFull;
use ib_levels::Latch;
use ib_mtr::CommitFault;

// What the log said to a change: the place of its entry, or that it is full. Where the log latch was refused,
// the fault tells it.
pub(crate) fn at_log(
    committed: Result<u32, CommitFault>,
) -> Result<Result<u32, LogFull>, NowaitFault>
    ensures told { IfOk result (λ told. committed ≡ by_log told) }
    ensures refused { IfErr result (λ fault. (refusal : TryFaultValue)
        × (committed ≡ Err (LogRefused refusal)) × (fault ≡ fault_on (record { 0 = 0 }) refusal)) }
{
    match committed {
        Ok(place) => Ok(Ok(place)),
        Err(CommitFault::Full(full)) => Ok(Err(full)),
        Err(CommitFault::LogRefused(refusal)) => Err(NowaitFault::of(Latch::LOG, refusal)),
    }
}
