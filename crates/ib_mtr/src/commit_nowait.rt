//! The commit that does not wait for the log latch.

ghost use Rattle.std.specs.Prelude.{◌≡◌, ◌+◌, ◌≤◌, IfErr, IfOk, IfSome, OnOk};
ghost use Rattle.ib_frames.specs.Appends.{IsLaidOut};
ghost use Rattle.ib_rule.specs.Under.{under, under_lawful};
ghost use Rattle.ib_mtr.specs.Commits.{HasCommitted, MayCommit};
ghost use Rattle.ib_mtr.specs.Mtr.{IsMtr};
ghost use Rattle.ib_mtr.specs.NowaitCommits.{HasNotCommitted, IsRefusedByLog};

use crate::commits::lay_out_early;
use crate::mtr::Mtr;
use ib_frames::LogFull;
use ib_latch::{Latches, Sleep, TryFault};
use ib_levels::{Latch, Level};
use ib_logrec::Law;
use ib_map::Change;
use ib_rule::Pass;
use thiserror::Error;

/// Why a commit that does not wait changed nothing.
#[derive(Clone, Copy, PartialEq, Eq, Debug, Error)]
pub enum CommitFault {
    /// The log has no room for each entry.
    #[error("the log is full: {0}")]
    Full(LogFull),
    /// The log latch was not had in X: somebody holds it, or the exchange came too late.
    #[error("the log latch: {0}")]
    LogRefused(TryFault),
}

impl<'a, L: Law, S: Sleep> Mtr<'a, L, S> {
    /// Commits as `commit` does (`mtr_t::commit`), but the log latch is tried (`mutex_enter_nowait` of the
    /// log's mutex), so that it works for every `Sleep`. Where the try is refused, the log's end is looked
    /// at, nothing is written, and all latches are given back, as `commit_read` does. `LogRefused` tells
    /// the word of the log latch that refused it. There are two looks at lock words at most, and no step of who waits.
    ///
    /// ```
    /// match mtr.commit_nowait(Change::Insert { key, value: 70 }) {
    ///     Ok(place) => Some(place),
    ///     Err(CommitFault::LogRefused(fault)) => later(fault),
    ///     Err(CommitFault::Full(full)) => None,
    /// }
    /// ```
    pub fn commit_nowait(self, change: Change) -> Result<u32, CommitFault>
        requires mtr { IsMtr self.latches.now self.pass.now }
        requires may { MayCommit (L.lawful self.latches.now.sizes.pages) self.pass.now change }
        ensures committed { IfOk result (λ place. under L.Law self.entry.latches.now HasCommitted
            change self.entry.pass.now place self.exit.1.0.now) }
        ensures not_committed { IfErr result (λ fault. under_lawful L.Law self.entry.latches.now
            HasNotCommitted self.entry.pass.now fault self.exit.1.0.now) }
        ensures looks { OnOk result (self.exit.1.0.now.view.looks.count
            ≡ self.entry.pass.now.view.looks.count + 2) }
        ensures most { self.exit.1.0.now.view.looks.count
            ≤ self.entry.pass.now.view.looks.count + 2 }
        ensures waits { self.exit.1.0.now.view.looks.waits ≡ self.entry.pass.now.view.looks.waits }
    {
        let Mtr { latches, pass } = self;
        commit_in_nowait(latches, pass, change)
    }
}

// The commit of the mini-transaction that works in the pass, with the log latch tried.
fn commit_in_nowait<L: Law, S: Sleep>(
    latches: &Latches<L, S>,
    pass: &mut Pass,
    change: Change,
) -> Result<u32, CommitFault>
    requires mtr { IsMtr latches.now pass.old }
    requires may { MayCommit (L.lawful latches.now.sizes.pages) pass.old change }
    ensures committed { IfOk result (λ place. under L.Law latches.now HasCommitted change pass.old
        place pass.new) }
    ensures not_committed { IfErr result (λ fault. under_lawful L.Law latches.now HasNotCommitted
        pass.old fault pass.new) }
    ensures looks { OnOk result (pass.new.view.looks.count ≡ pass.old.view.looks.count + 2) }
    ensures most { pass.new.view.looks.count ≤ pass.old.view.looks.count + 2 }
    ensures waits { pass.new.view.looks.waits ≡ pass.old.view.looks.waits }
{
    let laid = lay_out_early(latches, pass, change);
    commit_laid_nowait(latches, pass, change, laid)
}

// The same, where the entry may be laid out already.
fn commit_laid_nowait<L: Law, S: Sleep>(
    latches: &Latches<L, S>,
    pass: &mut Pass,
    change: Change,
    laid: Option<usize>,
) -> Result<u32, CommitFault>
    requires mtr { IsMtr latches.now pass.old }
    requires may { MayCommit (L.lawful latches.now.sizes.pages) pass.old change }
    requires laid { IfSome laid (IsLaidOut pass.old change pass.old.work) }
    ensures committed { IfOk result (λ place. under L.Law latches.now HasCommitted change pass.old
        place pass.new) }
    ensures not_committed { IfErr result (λ fault. under_lawful L.Law latches.now HasNotCommitted
        pass.old fault pass.new) }
    ensures looks { OnOk result (pass.new.view.looks.count ≡ pass.old.view.looks.count + 2) }
    ensures most { pass.new.view.looks.count ≤ pass.old.view.looks.count + 2 }
    ensures waits { pass.new.view.looks.waits ≡ pass.old.view.looks.waits }
{
    // For the proof: the session's number, which no step changes.
    let _ = pass.number();
    let mut mtr = Mtr { latches, pass };
    match mtr.try_x_latch(Latch::LOG, Level::Log) {
        Ok(()) => {}
        Err(fault) => {
            // For the proof: it is that number still.
            let _ = mtr.pass.number();
            mtr.log_end();
            mtr.give_back();
            mtr.finish();
            return Err(CommitFault::LogRefused(fault));
        }
    }
    // For the proof: it is that number still.
    let _ = mtr.pass.number();
    mtr.log_end();
    let result = mtr.append_entry(change, laid);
    // For the proof: what is seen fits the log.
    let _ = mtr.pass.used();
    mtr.give_back();
    mtr.finish();
    match result {
        Ok(place) => Ok(place),
        Err(full) => Err(CommitFault::Full(full)),
    }
}
