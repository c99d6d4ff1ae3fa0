//! Where the scratch of a session is.

ghost use Rattle.std.specs.Prelude.{◌≡◌, ◌<◌, ◌≤◌, ◌++◌, ◌∷◌, [], true, false, Some, length, slice_get, remove};
ghost use Rattle.std.specs.Borrow.{sem};
ghost use Rattle.ib_rule.specs.ScratchHolder.{bare, holder_state, free, taken, room_at};
ghost use Rattle.ib_rule.specs.Lending.{LendsHolder};

use crate::scratch::Scratch;
use ib_core::take_out;
use ib_levels::{Latch, Mode};
use ib_page::WorkSet;

// What holds the scratch of a session. That a mini-transaction works is a mark beside the scratch: so its start and
// its end change the mark alone, and move nothing.
#[derive(Drop)]
pub(crate) struct ScratchHolder {
    // The scratch. None while a caller has it.
    scratch: Option<Scratch>,
    // Whether a mini-transaction works in the scratch. If none does, there is nothing in it.
    is_taken: bool,
}

impl ScratchHolder {
    // The scratch is there, with nothing in it.
    pub(crate) fn free(scratch: Scratch) -> ScratchHolder
        ensures { result ≡ free scratch }
    {
        ScratchHolder {
            scratch: Some(scratch),
            is_taken: false,
        }
    }

    // A mini-transaction works in the scratch.
    #[inline(always)]
    pub(crate) fn taken(scratch: Scratch) -> ScratchHolder
        ensures { result ≡ taken scratch }
    {
        ScratchHolder {
            scratch: Some(scratch),
            is_taken: true,
        }
    }

    // Whether the scratch is there, with nothing in it.
    pub(crate) fn is_free(&self) -> bool
        ensures { result ≡ (holder_state self.now).is_free }
    {
        self.scratch.is_some() && !self.is_taken
    }

    // Whether a mini-transaction works in the scratch.
    pub(crate) fn is_taken(&self) -> bool
        ensures { result ≡ (holder_state self.now).is_taken }
    {
        self.scratch.is_some() && self.is_taken
    }

    // The scratch, which is with the caller from then on.
    #[inline(always)]
    pub(crate) fn take(&mut self) -> Scratch
        requires { (holder_state self.old).is_free ≡ true }
        ensures was { self.old ≡ free result }
        ensures bare { holder_state self.new ≡ bare }
    {
        match self.scratch.take() {
            Some(scratch) => scratch,
            None => unreachable!(),
        }
    }

    // The scratch in which a mini-transaction works, with all that is in it. It is with the caller from
    // then on.
    #[inline(always)]
    pub(crate) fn leave(&mut self) -> Scratch
        requires { (holder_state self.old).is_taken ≡ true }
        ensures was { self.old ≡ taken result }
        ensures bare { holder_state self.new ≡ bare }
    {
        match self.scratch.take() {
            Some(scratch) => scratch,
            None => unreachable!(),
        }
    }

    // A mini-transaction works in the scratch.
    #[inline(always)]
    pub(crate) fn begin(&mut self)
        requires { (holder_state self.old).is_free ≡ true }
        ensures state { holder_state self.new ≡ record (holder_state self.old) {
          is_free = false;
          is_taken = true;
        } }
        ensures room { room_at self.new ≡ room_at self.old }
    {
        self.is_taken = true;
    }

    // The work of a mini-transaction ends, and no page is there any more.
    #[inline(always)]
    pub(crate) fn end(&mut self)
        requires { (holder_state self.old).is_taken ≡ true }
        ensures state { holder_state self.new ≡ record {
          is_free = true;
          is_taken = false;
          work = [];
          memo = (holder_state self.old).memo;
        } }
        ensures room { room_at self.old ≤ room_at self.new }
    {
        self.work_mut().clear();
        self.is_taken = false;
    }

    // The grants that the mini-transaction remembers.
    #[inline(always)]
    pub(crate) fn memo(&self) -> &[(Latch, Mode)]
        ensures { result.now ≡ (holder_state self.now).memo }
    {
        match &self.scratch {
            Some(scratch) => scratch.memo.as_slice(),
            None => &[],
        }
    }

    // One more grant is remembered.
    #[inline(always)]
    pub(crate) fn remember(&mut self, latch: Latch, mode: Mode)
        requires taken { (holder_state self.old).is_taken ≡ true }
        requires room { length (holder_state self.old).memo < room_at self.old }
        ensures state { holder_state self.new ≡ record (holder_state self.old) {
          memo = (holder_state self.old).memo ++ (latch, mode) ∷ [];
        } }
        ensures room { room_at self.old ≤ room_at self.new }
    {
        match &mut self.scratch {
            Some(scratch) => {
                scratch.memo.push_reserved((latch, mode));
            }
            None => unreachable!(),
        }
    }

    // The grant at a place of the memo is forgotten.
    #[inline(always)]
    pub(crate) fn forget_at(&mut self, at: usize) -> (Latch, Mode)
        requires taken { (holder_state self.old).is_taken ≡ true }
        requires at { at < length (holder_state self.old).memo }
        ensures grant { slice_get (holder_state self.old).memo at ≡ Some result }
        ensures state { holder_state self.new ≡ record (holder_state self.old) {
          memo = remove (holder_state self.old).memo at;
        } }
        ensures room { room_at self.old ≤ room_at self.new }
    {
        match &mut self.scratch {
            Some(scratch) => take_out(&mut scratch.memo, at),
            None => unreachable!(),
        }
    }

    // The pages that the mini-transaction works on.
    #[inline(always)]
    pub(crate) fn work(&self) -> &WorkSet
        requires { (holder_state self.now).is_taken ≡ true }
        ensures { result.now ≡ (holder_state self.now).work }
    {
        match &self.scratch {
            Some(scratch) => &scratch.work,
            None => unreachable!(),
        }
    }

    // .. lent.
    #[inline(always)]
    pub(crate) fn work_mut(&mut self) -> &mut WorkSet
        requires { (holder_state self.old).is_taken ≡ true }
        ensures* lends { sem 𝓛 (LendsHolder self.entry result) }
        ensures work { result.now ≡ (holder_state self.old).work }
    {
        match &mut self.scratch {
            Some(scratch) => &mut scratch.work,
            None => unreachable!(),
        }
    }
}
