//! The end of a mini-transaction: its commit, which is one append, or its end without a change.

ghost use Rattle.std.specs.Prelude.{◌≡◌, ◌<◌, ◌+◌, ◌≤◌, ◌*◌, [], length, IfOk, IfErr, IfSome};
ghost use Rattle.ib_core.specs.Sessions.{idle};
ghost use Rattle.ib_logrec.specs.Log.{used};
ghost use Rattle.ib_page.specs.Work.{IsWork};
ghost use Rattle.ib_frames.specs.Appends.{IsLaidOut, MayAppend, entry_for};
ghost use Rattle.ib_rule.specs.declared.pass.TheConstants.{ENTRY_WORDS};
ghost use Rattle.ib_rule.specs.Pass.{with_view};
ghost use Rattle.ib_rule.specs.Stores.{appending};
ghost use Rattle.ib_rule.specs.Under.{under, under_lawful};
ghost use Rattle.ib_mtr.specs.Commits.{HasCommitted, HasRead, IsFull, MayCommit};
ghost use Rattle.ib_mtr.specs.Mtr.{IsMtr, IsReleasedTo, IsStillMtr, with_work};

use crate::mtr::Mtr;
use ib_frames::{LogFull, append_laid, lay_out};
use ib_latch::{Latches, Parkers, Sleep};
use ib_levels::{Latch, Level};
use ib_logrec::{Law, MOST_WRITES};
use ib_map::{Change, PAGE_WORDS};
use ib_rule::Pass;
use std::sync::Wait;

impl<'a, L: Law> Mtr<'a, L, Parkers> {
    /// Commits (`mtr_t::commit`): takes X on the log latch, looks at the log's end, and appends one
    /// entry for the change, with the words in which the pages of the work set differ from what was
    /// read. It answers the entry's place, and each page of the work set is from there on as it was
    /// changed. `LogFull` exactly where the log has fewer than `ENTRY_WORDS` words left: then nothing is
    /// written. Either way all latches are given back, from the newest to the oldest, the log latch
    /// first.
    ///
    /// What others appended since the last look conflicts with no latch that was watched when the
    /// call began. The condition is on every such list of entries: the change is lawful behind it.
    ///
    /// ```
    /// let key = Key::of_number(7);
    /// match mtr.commit(rt, Change::Insert { key, value: 70 }) {
    ///     Ok(place) => Some(place),
    ///     Err(LogFull { used, cap }) => None,
    /// }
    /// ```
    pub fn commit<R: Wait>(self, rt: &R, change: Change) -> Result<u32, LogFull>
        requires mtr { IsMtr self.latches.now self.pass.now }
        requires may { MayCommit (L.lawful self.latches.now.sizes.pages) self.pass.now change }
        ensures committed { IfOk result (λ place. under L.Law self.entry.latches.now HasCommitted
            change self.entry.pass.now place self.exit.1.0.now) }
        ensures full { IfErr result (λ full. under_lawful L.Law self.entry.latches.now IsFull
            self.entry.pass.now full self.exit.1.0.now) }
    {
        let Mtr { latches, pass } = self;
        commit_in(latches, pass, rt, change)
    }
}

impl<'a, L: Law, S: Sleep> Mtr<'a, L, S> {
    /// Ends without a change (`mtr_t::commit` of a mini-transaction that made no modifications), once the
    /// log's end was looked at: it answers the place after all entries seen. All latches are given back,
    /// from the newest to the oldest, and nothing is written.
    ///
    /// ```
    /// let mtr = Mtr::start(&table, &mut pass);
    /// let place = mtr.commit_read();
    /// ```
    pub fn commit_read(self) -> u32
        requires { IsMtr self.latches.now self.pass.now }
        ensures { under_lawful L.Law self.entry.latches.now HasRead self.entry.pass.now result
            self.exit.1.0.now }
    {
        let Mtr { latches, pass } = self;
        read_and_end(latches, pass)
    }

    // Appends the entry of the change, with what the work set changes; it may be laid out already.
    pub(crate) fn append_entry(
        &mut self,
        change: Change,
        laid: Option<usize>,
    ) -> Result<u32, LogFull>
        requires mtr { IsMtr self.old.latches.now self.old.pass.now }
        requires laid { IfSome laid (IsLaidOut self.old.pass.now change self.old.pass.now.work) }
        requires may { used self.old.pass.now.view.memory.seen + ENTRY_WORDS
            ≤ self.old.latches.now.sizes.log_words
            → MayAppend (L.lawful self.old.latches.now.sizes.pages) self.old.pass.now change
            self.old.pass.now.work }
        ensures latches { self.new.latches ≡ self.old.latches }
        ensures pass { self.new.pass.ghost_name ≡ self.old.pass.ghost_name }
        ensures place { IfOk result (λ place. place ≡ length self.old.pass.now.view.memory.seen) }
        ensures wide { IfOk result (λ _. used self.old.pass.now.view.memory.seen + ENTRY_WORDS
            ≤ self.old.latches.now.sizes.log_words) }
        ensures ok { IfOk result (λ place. self.new.pass.now ≡ record (with_view self.old.pass.now
            (appending (entry_for self.old.pass.now change self.old.pass.now.work)
            self.old.pass.now.view)) {
              words = self.new.pass.now.words;
            }) }
        ensures err { IfErr result (λ full. (full.used ≡ used self.old.pass.now.view.memory.seen)
            × (full.cap ≡ self.old.latches.now.sizes.log_words)
            × (self.old.latches.now.sizes.log_words
            < used self.old.pass.now.view.memory.seen + ENTRY_WORDS)
            × (self.new.pass.now ≡ self.old.pass.now)) }
        ensures work { IsWork self.old.pass.now.work }
    {
        let room = self.pass.leave_work();
        // For the proof: the pages of a work set ascend.
        let _ = room.work.len();
        let result = append_laid(self.latches.space(), self.pass, change, &room.work, laid);
        self.pass.resume_work(room);
        result
    }

    /// Gives all back (`mtr_t::Command::release_all`): all pages leave the work set, changed or not, and all
    /// grants are given back, from the newest to the oldest. It is a mini-transaction still, that holds
    /// nothing; nothing is read or written.
    ///
    /// ```
    /// mtr.give_back();
    /// mtr.finish();
    /// ```
    pub fn give_back(&mut self)
        requires { IsMtr self.old.latches.now (with_work [] self.old.pass.now) }
        ensures still { IsStillMtr self.old self.new }
        ensures given { IsReleasedTo 0 (with_work [] self.old.pass.now) self.new.pass.now }
        ensures idle { self.new.pass.now.view.session ≡ idle }
    {
        self.pass.work_mut().clear();
        self.release_all();
    }
}

// Lays out the entry of the change before the log latch is taken, which so is held the shorter: where the pages are
// so few that what is changed of them fits an entry, however much it is.
pub(crate) fn lay_out_early<L: Law, S: Sleep>(
    latches: &Latches<L, S>,
    pass: &mut Pass,
    change: Change,
) -> Option<usize>
    requires mtr { IsMtr latches.now pass.old }
    ensures same { pass.new ≡ record pass.old { words = pass.new.words } }
    ensures laid { IfSome result (IsLaidOut pass.new change pass.new.work) }
{
    // For the proof: how many entries the session has made fits the log, and that fits 32 bits.
    let _ = (pass.made(), pass.used());
    let _ = latches.space().geometry().log_words();
    if PAGE_WORDS * pass.work().len() > MOST_WRITES {
        return None;
    }
    let room = pass.leave_work();
    let writes = lay_out(pass, change, &room.work);
    pass.resume_work(room);
    Some(writes)
}

// The commit of the mini-transaction that works in the pass.
fn commit_in<L: Law, R: Wait>(
    latches: &Latches<L, Parkers>,
    pass: &mut Pass,
    rt: &R,
    change: Change,
) -> Result<u32, LogFull>
    requires mtr { IsMtr latches.now pass.old }
    requires may { MayCommit (L.lawful latches.now.sizes.pages) pass.old change }
    ensures committed { IfOk result (λ place. under L.Law latches.now HasCommitted change pass.old
        place pass.new) }
    ensures full { IfErr result (λ full. under_lawful L.Law latches.now IsFull pass.old full
        pass.new) }
{
    let laid = lay_out_early(latches, pass, change);
    commit_laid(latches, pass, rt, change, laid)
}

// The same, where the entry may be laid out already.
fn commit_laid<L: Law, R: Wait>(
    latches: &Latches<L, Parkers>,
    pass: &mut Pass,
    rt: &R,
    change: Change,
    laid: Option<usize>,
) -> Result<u32, LogFull>
    requires mtr { IsMtr latches.now pass.old }
    requires may { MayCommit (L.lawful latches.now.sizes.pages) pass.old change }
    requires laid { IfSome laid (IsLaidOut pass.old change pass.old.work) }
    ensures committed { IfOk result (λ place. under L.Law latches.now HasCommitted change pass.old
        place pass.new) }
    ensures full { IfErr result (λ full. under_lawful L.Law latches.now IsFull pass.old full
        pass.new) }
{
    // For the proof: the session's number, which no step changes.
    let _ = pass.number();
    let mut mtr = Mtr { latches, pass };
    mtr.x_latch(rt, Latch::LOG, Level::Log);
    // For the proof: it is that number still.
    let _ = mtr.pass.number();
    mtr.log_end();
    let result = mtr.append_entry(change, laid);
    // For the proof: what is seen fits the log.
    let _ = mtr.pass.used();
    mtr.give_back();
    mtr.finish();
    result
}

// A look at the log's end, and the end of the mini-transaction that works in the pass.
fn read_and_end<L: Law, S: Sleep>(latches: &Latches<L, S>, pass: &mut Pass) -> u32
    requires { IsMtr latches.now pass.old }
    ensures { under_lawful L.Law latches.now HasRead pass.old result pass.new }
{
    let mut reader = Mtr { latches, pass };
    let place = reader.log_end().entries;
    reader.give_back();
    reader.finish();
    place
}
