//! The room of a pass while a mini-transaction works in it: its memo and its work set.

ghost use Rattle.std.specs.Prelude.{◌≡◌, ◌<◌, ◌≤◌, ◌++◌, ◌∷◌, [], true, false, Some, IsTrue, length, slice_get, remove, vec_capacity};
ghost use Rattle.std.specs.Borrow.{sem};
ghost use Rattle.ib_core.specs.Good.{IsProper};
ghost use Rattle.ib_rule.specs.declared.pass.TheConstants.{MOST_HELD};
ghost use Rattle.ib_rule.specs.Lending.{LendsWork};
ghost use Rattle.ib_rule.specs.Views.{KnowsHeld};

use crate::pass::Pass;
use crate::scratch::Scratch;
use crate::scratch_holder::ScratchHolder;
use ib_levels::{Latch, Mode};
use ib_page::WorkSet;

impl Pass {
    /// Whether the scratch is in the pass, and no mini-transaction works in it.
    pub fn has_scratch(&self) -> bool
        ensures { result ≡ self.now.has_scratch }
    {
        self.holder.is_free()
    }

    /// Whether a mini-transaction works in the scratch.
    pub fn is_working(&self) -> bool
        ensures { result ≡ self.now.is_working }
    {
        self.holder.is_taken()
    }

    /// A mini-transaction works in the scratch from then on (mtr0mtr, `mtr_t::start`): its memo and
    /// its work set are empty.
    #[inline(always)]
    pub fn begin_work(&mut self)
        requires { IsTrue self.old.has_scratch }
        ensures begun { self.new ≡ record self.old {
          has_scratch = false;
          is_working = true;
          work = [];
          memo = [];
        } }
        ensures session { IsProper self.old.view.session }
    {
        self.holder.begin();
    }

    /// The room of the mini-transaction, with its pages and its grants, which is out of the pass until
    /// `resume_work`: so that a step of the pass may read or fill the pages.
    #[inline(always)]
    pub fn leave_work(&mut self) -> Scratch
        requires { IsTrue self.old.is_working }
        ensures work { result.work ≡ self.old.work }
        ensures memo { result.memo.items ≡ self.old.memo }
        ensures room { MOST_HELD ≤ vec_capacity result.memo }
        ensures out { self.new ≡ record self.old { is_working = false; work = []; memo = [] } }
        ensures bare { self.old.has_scratch ≡ false }
    {
        self.holder.leave()
    }

    /// The mini-transaction works on in this room, with the pages and the grants that are in it.
    #[inline(always)]
    pub fn resume_work(&mut self, room: Scratch)
        requires out { self.old.has_scratch ≡ false }
        requires rests { self.old.is_working ≡ false }
        requires room { MOST_HELD ≤ vec_capacity room.memo }
        ensures { self.new ≡ record self.old {
          is_working = true;
          work = room.work;
          memo = room.memo.items;
        } }
    {
        self.holder = ScratchHolder::taken(room);
    }

    /// The mini-transaction ends, with nothing in its memo: its pages are gone, and the scratch is
    /// free again.
    #[inline(always)]
    pub fn end_work(&mut self)
        requires works { IsTrue self.old.is_working }
        requires none { self.old.memo ≡ [] }
        ensures ended { self.new ≡ record self.old {
          has_scratch = true;
          is_working = false;
          work = [];
        } }
        ensures known { KnowsHeld self.old.view }
    {
        self.holder.end();
    }

    /// The grants that the mini-transaction remembers, in order of taking. None where none works.
    #[inline(always)]
    pub fn memo(&self) -> &[(Latch, Mode)]
        ensures { result.now ≡ self.now.memo }
    {
        self.holder.memo()
    }

    /// The mini-transaction remembers one more grant, behind the others. It remembers fewer than
    /// `MOST_HELD`, so this takes no memory.
    #[inline(always)]
    pub fn remember(&mut self, latch: Latch, mode: Mode)
        requires works { IsTrue self.old.is_working }
        requires room { length self.old.memo < MOST_HELD }
        ensures more { self.new ≡ record self.old { memo = self.old.memo ++ (latch, mode) ∷ [] } }
        ensures session { IsProper self.old.view.session }
    {
        self.holder.remember(latch, mode);
    }

    /// The mini-transaction forgets the grant at a place of its memo, from 0 on, and those behind it
    /// move down.
    #[inline(always)]
    pub fn forget_at(&mut self, at: usize) -> (Latch, Mode)
        requires works { IsTrue self.old.is_working }
        requires at { at < length self.old.memo }
        ensures grant { slice_get self.old.memo at ≡ Some result }
        ensures fewer { self.new ≡ record self.old { memo = remove self.old.memo at } }
        ensures session { IsProper self.old.view.session }
    {
        self.holder.forget_at(at)
    }

    /// The pages that the mini-transaction works on.
    #[inline(always)]
    pub fn work(&self) -> &WorkSet
        requires { IsTrue self.now.is_working }
        ensures { result.now ≡ self.now.work }
    {
        self.holder.work()
    }

    /// The same, lent to be changed.
    #[inline(always)]
    pub fn work_mut(&mut self) -> &mut WorkSet
        requires { IsTrue self.old.is_working }
        ensures* lends { sem 𝓛 (LendsWork self.entry result) }
        ensures work { result.now ≡ self.old.work }
    {
        self.holder.work_mut()
    }
}
