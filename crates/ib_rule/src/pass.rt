//! The token of one session, and what a caller may ask it.

ghost use Rattle.std.specs.Prelude.{◌≡◌, ◌↔◌, ◌+◌, ◌<◌, ◌≤◌, ◌^◌, None, sum_by, true, false, [], IsTrue, length, vec_capacity};
ghost use Rattle.ib_levels.specs.Holding.{is_held, levels_of};
ghost use Rattle.ib_levels.specs.Listed.{answer_to};
ghost use Rattle.ib_core.specs.Holders.{CanWish};
ghost use Rattle.ib_core.specs.Sessions.{claims, idle, reads, sx_grants, x_grants};
ghost use Rattle.ib_logrec.specs.declared.entry.TheConstants.{MOST_SESSIONS};
ghost use Rattle.ib_logrec.specs.Log.{used};
ghost use Rattle.ib_rule.specs.Conditions.{MayGrow, held_now};
ghost use Rattle.ib_rule.specs.declared.view.Role.TheVariants.{Session};
ghost use Rattle.ib_rule.specs.Gauges.{mode_held};
ghost use Rattle.ib_rule.specs.Lending.{LendsWords};
ghost use Rattle.ib_rule.specs.declared.pass.TheConstants.{ENTRY_WORDS};
ghost use Rattle.std.specs.Borrow.{sem};

use crate::looks::Grants;
use crate::scratch::Scratch;
use crate::scratch_holder::ScratchHolder;
use crate::view::View;
use atomic_table::Seat;
use ib_core::{Member, Phase};
use ib_layout::Geometry;
use ib_levels::{Against, Holding, Latch, Level, Mode};
use std::marker::Model;

/// How many words a pass has for an entry, and an append asks for in the log: the longest entry has one less.
pub const ENTRY_WORDS: usize = 8196;

const _: () = prove!(ENTRY_WORDS == 8196);

/// How many grants a session may hold at a time.
pub const MOST_HELD: usize = 8192;

const _: () = prove!(MOST_HELD == 8192);

/// How many grants a session may ever take.
pub const MOST_GRANTS: u64 = 1 << 52;

const _: () = prove!(MOST_GRANTS == 4_503_599_627_370_496);

/// The token of one session: it is drawn from a space by `connect`, given back by `disconnect`, and
/// may go over to another thread. It has the seat with which the session makes its steps, mirrors
/// what the session holds and has seen, and owns the room in which the session works, so that no
/// step takes memory. It is not dropped.
pub struct Pass {
    pub(crate) seat: Seat<(), View>,
    pub(crate) geometry: Geometry,
    pub(crate) number: u32,
    pub(crate) member: Member,
    pub(crate) grants: Grants,
    pub(crate) place: u32,
    pub(crate) used: u32,
    pub(crate) made: u32,
    // How many grants it had taken at its last look at the log's end.
    pub(crate) looked_after: u64,
    pub(crate) words: Vec<u64>,
    pub(crate) holder: ScratchHolder,
}

impl Model for Pass {
    ghost use Rattle.ib_rule.specs.Pass.{PassState, pass_state, IsPass};

    ghost Value = { PassState };

    ghost view = { λ p. pass_state p };

    ghost invariant = { λ p. IsPass p };
}

impl Pass {
    /// The session's number, from 1 to `MOST_SESSIONS`.
    pub fn number(&self) -> u32
        ensures number { result ≡ self.now.number }
        ensures session { self.now.view.role ≡ Session self.now.number }
        ensures least { 1 ≤ result }
        ensures most { result ≤ MOST_SESSIONS }
    {
        self.number
    }

    /// How many entries of the log it has seen.
    pub fn place(&self) -> u32
        ensures { result ≡ length self.now.view.memory.seen }
    {
        self.place
    }

    /// How many words the entries have that it has seen.
    pub fn used(&self) -> u32
        ensures used { result ≡ used self.now.view.memory.seen }
        ensures entries { length self.now.view.memory.seen ≤ result }
        ensures room { result ≤ self.now.sizes.log_words }
    {
        self.used
    }

    /// How many entries it has made.
    pub fn made(&self) -> u32
        ensures made { result ≡ length self.now.view.memory.own }
        ensures seen { result ≤ length self.now.view.memory.seen }
    {
        self.made
    }

    /// The grants that it ever took, by mode.
    pub fn grants_taken(&self) -> Grants
        ensures { result ≡ self.now.view.grants }
    {
        self.grants
    }

    /// Its phase.
    pub fn phase(&self) -> Phase
        ensures { result ≡ self.now.view.session.phase }
    {
        self.member.phase()
    }

    /// How many grants it holds now, on all latches.
    pub fn grants_held(&self) -> u64
        ensures { result ≡ held_now self.now.view.session }
    {
        grants_of(self.member.held())
    }

    /// The strongest mode that it holds on the latch, and none where it holds nothing there. A next
    /// writer holds X.
    pub fn mode_held(&self, latch: Latch) -> Option<Mode>
        ensures { result ≡ mode_held latch.0 self.now.view.session }
    {
        let counts = self.counts(latch);
        if counts.x > 0 {
            Some(Mode::X)
        } else if counts.sx > 0 {
            Some(Mode::Sx)
        } else if counts.s > 0 {
            Some(Mode::S)
        } else {
            None
        }
    }

    /// The grants that it holds now on the latch, by mode.
    pub fn counts(&self, latch: Latch) -> Grants
        ensures s { result.s ≡ reads latch.0 self.now.view.session }
        ensures sx { result.sx ≡ sx_grants latch.0 self.now.view.session }
        ensures x { result.x ≡ x_grants latch.0 self.now.view.session }
        ensures claims { result.sx + result.x ≡ claims latch.0 self.now.view.session }
    {
        let counts = self.member.counts(latch);
        Grants {
            s: u64::from(counts.s),
            sx: u64::from(counts.sx),
            x: u64::from(counts.x),
        }
    }

    /// Whether the order of levels allows it the latch at the level: it does where the session
    /// holds the latch already. Else the answer names the first level held that forbids it.
    pub fn may_take(&self, latch: Latch, level: Level) -> Result<(), Against>
        ensures { result
            ≡ answer_to (is_held latch.0 self.now.view.session.held) level
            (levels_of self.now.view.session.held) }
    {
        self.member.may_take(latch, level)
    }

    /// Whether it holds nothing and is in the middle of nothing, as a session must be that ends. Then it watches no latch.
    pub fn is_idle(&self) -> bool
        ensures idle { IsTrue result ↔ (self.now.view.session ≡ idle) }
        ensures unwatched { self.now.view.session ≡ idle → self.now.view.memory.since ≡ [] }
    {
        match self.phase() {
            Phase::Free => self.member.held().is_empty(),
            _ => false,
        }
    }

    /// Whether it may wish for the latch at the level: it is in the middle of nothing, holds nothing
    /// there, and the order of levels allows it.
    pub fn can_wish(&self, latch: Latch, level: Level) -> bool
        ensures { IsTrue result ↔ CanWish latch.0 level self.now.view.session }
    {
        match self.phase() {
            Phase::Free if !self.member.holds(latch) => self.may_take(latch, level).is_ok(),
            _ => false,
        }
    }

    /// Whether it may take a grant: it holds fewer than `MOST_HELD`, and has taken fewer than 2^52.
    pub fn may_grow(&self) -> bool
        ensures { IsTrue result ↔ MayGrow self.now.view }
    {
        let Grants { s, sx, x } = self.grants;
        s + sx + x < MOST_GRANTS && self.grants_held() < MOST_HELD as u64
    }

    /// The words for an entry, as they were filled last: `ENTRY_WORDS` of them.
    pub fn words(&self) -> &[u64]
        ensures words { result.now ≡ self.now.words }
        ensures size { length result.now ≡ ENTRY_WORDS }
    {
        self.words.as_slice()
    }

    /// The words for an entry, lent to be filled: `ENTRY_WORDS` of them. The pass has no open append.
    pub fn entry_words(&mut self) -> &mut [u64]
        requires { self.old.view.memory.append ≡ None }
        ensures* lends { sem 𝓛 (LendsWords self.entry result) }
        ensures words { result.now ≡ self.old.words }
        ensures size { length result.now ≡ ENTRY_WORDS }
    {
        self.words.as_mut_slice()
    }

    /// The scratch, which is out of the pass from then on: no pages, with room for 32, and an empty
    /// memo, with room for 8,192 grants. No mini-transaction works in it.
    pub fn take_scratch(&mut self) -> Scratch
        requires { IsTrue self.old.has_scratch }
        ensures work { result.work ≡ [] }
        ensures memo { result.memo.items ≡ [] }
        ensures room { 8192 ≤ vec_capacity result.memo }
        ensures out { self.new ≡ record self.old { has_scratch = false } }
        ensures rests { self.new.is_working ≡ false }
    {
        self.holder.take()
    }

    /// The scratch is in the pass again, emptied. No mini-transaction works there.
    pub fn put_scratch(&mut self, scratch: Scratch)
        requires out { self.old.has_scratch ≡ false }
        requires rests { self.old.is_working ≡ false }
        requires room { 8192 ≤ vec_capacity scratch.memo }
        ensures { self.new ≡ record self.old { has_scratch = true } }
    {
        let Scratch { mut work, mut memo } = scratch;
        work.clear();
        memo.clear();
        self.holder = ScratchHolder::free(Scratch { work, memo });
    }
}

impl Pass {
    // The seat, for the end of the session.
    pub(crate) fn into_seat(self) -> Seat<(), View>
        ensures table { result.table_id ≡ self.table }
        ensures me { result.me ≡ (self.view, []) }
        ensures role { self.view.role ≡ Session self.number }
    {
        let Pass {
            seat,
            geometry: _,
            number: _,
            member: _,
            grants: _,
            place: _,
            used: _,
            made: _,
            looked_after: _,
            words: _,
            holder: _,
        } = self;
        seat
    }
}

// All grants of a list of holdings.
fn grants_of(held: &[Holding]) -> u64
    requires { sum_by (λ h. h.s + h.sx + h.x) held.now < 2 ^ 64 }
    ensures { result ≡ sum_by (λ h. h.s + h.sx + h.x) held.now }
{
    held.iter()
        .map(|h| u64::from(h.s) + u64::from(h.sx) + u64::from(h.x))
        .sum()
}
