//! The memory of a pass, before it has a seat.

ghost use Rattle.std.specs.Prelude.{◌≡◌, ◌<◌, ◌≤◌, true, [], IfOk};
ghost use Rattle.ib_layout.specs.Places.{latches_of};
ghost use Rattle.ib_logrec.specs.declared.entry.TheConstants.{MOST_SESSIONS};
ghost use Rattle.ib_rule.specs.declared.view.Role.TheVariants.{Session};
ghost use Rattle.ib_rule.specs.PassMemory.{IsPassMemory};
ghost use Rattle.ib_rule.specs.Views.{seated};

use crate::looks::Grants;
use crate::pass::{ENTRY_WORDS, MOST_HELD, Pass};
use crate::scratch::Scratch;
use crate::scratch_holder::ScratchHolder;
use crate::space::OutOfMemory;
use crate::view::View;
use atomic_table::Seat;
use ib_core::Member;
use ib_layout::Geometry;
use ib_page::WorkSet;
use std::alloc::Global;

// All that a pass owns beside its seat.
pub(crate) struct PassMemory {
    pub(crate) member: Member,
    pub(crate) words: Vec<u64>,
    pub(crate) scratch: Scratch,
}

impl PassMemory {
    // The room of a session among so many latches.
    pub(crate) fn new(alloc: Global, latches: u32) -> Result<PassMemory, OutOfMemory>
        ensures { IfOk result (λ r. IsPassMemory latches r) }
    {
        let member = Member::idle(alloc, latches)?;
        let words = vec![in alloc; 0; ENTRY_WORDS]?;
        let work = WorkSet::with_room(alloc)?;
        let memo = Vec::with_capacity(alloc, MOST_HELD)?;
        Ok(PassMemory {
            member,
            words,
            scratch: Scratch { work, memo },
        })
    }

    // The pass of the session with this number, by its seat, in a space of these sizes.
    pub(crate) fn into_pass(self, seat: Seat<(), View>, geometry: Geometry, number: u32) -> Pass
        requires room { IsPassMemory (latches_of geometry) self }
        requires seat { seat.me ≡ (seated (Session number), []) }
        requires least { 1 ≤ number }
        requires most { number ≤ MOST_SESSIONS }
        ensures table { result.table ≡ seat.table_id }
        ensures sizes { result.sizes ≡ geometry }
        ensures number { result.number ≡ number }
        ensures view { result.view ≡ seated (Session number) }
        ensures scratch { result.has_scratch ≡ true }
    {
        let PassMemory {
            member,
            words,
            scratch,
        } = self;
        Pass {
            seat,
            geometry,
            number,
            member,
            grants: Grants::NONE,
            place: 0,
            used: 0,
            made: 0,
            looked_after: 0,
            words,
            holder: ScratchHolder::free(scratch),
        }
    }
}
