//! A space as C holds it: open, with the passes that no session has, or closed, with its words.

ghost use Rattle.std.specs.Prelude.{◌≡◌, ◌↔◌, false, IfErr, IfOk, IsTrue};
ghost use Rattle.ib_rule.specs.Pass.{IsFrom};
ghost use Rattle.ib_c.specs.declared.space.Space.TheVariants.{Open};
ghost use Rattle.ib_c.specs.declared.status.Status.TheVariants.{OutOfMemory};
ghost use Rattle.ib_c.specs.SpaceStates.{AreAtRest, IsWhole};
ghost use Rattle.ib_c.specs.Spaces.{HasClosedSpace, HasConnected, HasConnectedTo, HasDisconnected, HasDisconnectedFrom, HasEnded, HasOpened, IsFromSpace, IsNotConnected, IsNotDisconnected, IsNotEnded, IsOpened, IsRefusedEnd, IsRefusedStart, is_open};

use crate::pool::{connect_all, disconnect_all};
use crate::session::Session;
use crate::status::Status;
use crate::table::Table;
use ib_layout::{Geometry, LayoutFault};
use ib_logrec::MOST_SESSIONS;
use ib_rule::{Pass, SpaceWords};
use ib_shared::SharedSpace;
use std::alloc::{AllocFailed, Global};
use std::marker::Model;
use std::mem::{ManuallyDrop, replace};
use std::sync::Arc;

/// A space that is open.
pub(crate) struct Opened {
    table: Arc<Table, Global>,
    pool: Vec<Pass>,
}

impl Model for Opened {
    ghost use Rattle.std.specs.Arc.{arc_value};
    ghost use Rattle.std.specs.Vec.{vec_capacity};
    ghost use Rattle.ib_c.specs.SpaceStates.{IsPool, OpenState};

    ghost Value = { OpenState };

    ghost view = { λ s. record { space = arc_value s.table; pool = s.pool.items } };

    ghost invariant = { λ s. IsPool (arc_value s.table) s.pool.items (vec_capacity s.pool) };
}

/// A space: open, or closed with its words. `Gone` stands in its place while it is closed, and at no other time.
pub(crate) enum Space {
    Open(Opened),
    Closed(SpaceWords),
    Gone,
}

// No call lets an open one go: it is what `Box::into_raw` asks of a box's type.
impl Drop for Space {
    fn drop(self) {
        match self {
            Space::Open(opened) => {
                let _ = unsafe { ManuallyDrop::new_unchecked(opened) };
            }
            Space::Closed(words) => drop(words),
            Space::Gone => {}
        }
    }
}

impl Opened {
    /// A new space of these sizes, with so many passes.
    pub(crate) fn open(
        alloc: Global,
        pages: u32,
        log_words: u32,
        sessions: u32,
    ) -> Result<Opened, Status>
        ensures { HasOpened pages log_words sessions result }
    {
        if sessions == 0 || sessions > MOST_SESSIONS {
            return Err(Status::BadSessions);
        }
        match Geometry::new(pages, log_words) {
            Ok(sizes) => Opened::with_sizes(alloc, sizes, sessions),
            Err(LayoutFault::BadPages { .. }) => Err(Status::BadPages),
            Err(LayoutFault::BadLog { .. }) => Err(Status::BadLog),
        }
    }

    // A new space of these sizes, with so many passes. Refused for want of memory alone.
    fn with_sizes(alloc: Global, sizes: Geometry, sessions: u32) -> Result<Opened, Status>
        ensures ok { IfOk result (IsOpened sizes sessions) }
        ensures err { IfErr result (λ e. e ≡ OutOfMemory) }
    {
        let Ok(mut pool) = Vec::with_capacity(alloc, sessions as usize) else {
            return Err(Status::OutOfMemory);
        };
        let Ok(mut table) = Table::open(alloc, sizes) else {
            pool.destroy_empty();
            return Err(Status::OutOfMemory);
        };
        if !connect_all(&mut table, alloc, sessions, &mut pool) {
            give_up(table, pool);
            return Err(Status::OutOfMemory);
        }
        match Arc::new(alloc, table) {
            Ok(table) => Ok(Opened { table, pool }),
            Err(AllocFailed { value: table }) => {
                give_up(table, pool);
                Err(Status::OutOfMemory)
            }
        }
    }

    /// A pass out of the pool, as a session.
    #[tactic(auto, using(crate::proofs::Pools::one_more, crate::proofs::Pools::one_fewer))]
    pub(crate) fn connect(&mut self, alloc: Global) -> Result<Box<Session>, Status>
        ensures ok { IfOk result (λ b. HasConnected self.old b.value self.new) }
        ensures err { IfErr result (λ e. (self.new ≡ self.old) × IsRefusedStart self.old e) }
    {
        let Some(pass) = self.pool.pop() else {
            return Err(Status::NoSessionLeft);
        };
        let Ok(table) = Arc::try_clone(&self.table) else {
            self.pool.push_reserved(pass);
            return Err(Status::OutOfMemory);
        };
        match Box::new(alloc, Session { table, pass }) {
            Ok(session) => Ok(session),
            Err(AllocFailed { value }) => {
                let (table, pass) = value.into_parts();
                leak(table);
                self.pool.push_reserved(pass);
                Err(Status::OutOfMemory)
            }
        }
    }

    /// The pass of a session into the pool. Where it is refused, the session comes back.
    #[tactic(auto, using(crate::proofs::Pools::one_more, crate::proofs::Pools::still_at_rest))]
    pub(crate) fn disconnect(&mut self, session: Box<Session>) -> Result<(), (Box<Session>, Status)>
        requires from { IsFrom self.old.space session.value.pass }
        ensures ok { IfOk result (λ x. HasDisconnected self.old session.value self.new) }
        ensures err { IfErr result (λ r. (r.0.value ≡ session.value) × (self.new ≡ self.old)
            × IsRefusedEnd self.old session.value r.1) }
    {
        if !session.is_at_rest() {
            return Err((session, Status::NotAllowed));
        }
        if self.is_whole() {
            return Err((session, Status::NotConnected));
        }
        let (table, pass) = Box::into_inner(session).into_parts();
        leak(table);
        self.pool.push_reserved(pass);
        Ok(())
    }
}

impl Opened {
    // Whether all passes that were drawn and have not ended are in the pool: no session is connected.
    fn is_whole(&self) -> bool
        ensures { IsTrue result ↔ IsWhole self.now.space self.now.pool }
    {
        self.table.connected() as usize == self.pool.len()
    }

    // What its sessions shared, with all passes given back. Where sessions are connected, or a call on one has not
    // ended, it stays as it was.
    fn end(self) -> Result<Table, (Opened, Status)>
        ensures ok { IfOk result (HasEnded self) }
        ensures err { IfErr result (λ r. (r.0 ≡ self) × IsNotEnded self r.1) }
    {
        if !self.is_whole() {
            return Err((self, Status::Connected));
        }
        let Opened { table, mut pool } = self;
        match Arc::try_unwrap(table) {
            Err(table) => Err((Opened { table, pool }, Status::InCall)),
            Ok(mut table) => {
                disconnect_all(&mut table, &mut pool);
                pool.destroy_empty();
                Ok(table)
            }
        }
    }

    /// Gives it up, where no session is connected.
    pub(crate) fn give_up(self) {
        match self.end() {
            Ok(table) => table.discard(),
            Err((opened, _)) => {
                let _ = unsafe { ManuallyDrop::new_unchecked(opened) };
            }
        }
    }
}

impl Space {
    /// Gives it up, where it is open and no session is connected.
    pub(crate) fn give_up(self) {
        if let Ok(opened) = self.into_opened() {
            opened.give_up();
        }
    }

    /// Closes it, where it is open and no session is connected. It takes no memory, so that no want of it refuses that.
    pub(crate) fn close(&mut self) -> Status
        ensures { HasClosedSpace self.old result self.new }
    {
        let (space, status) = replace(self, Space::Gone).into_closed();
        *self = space;
        status
    }

    // The space closed, where it is open and all its sessions are given back, and else as it was, with why.
    fn into_closed(self) -> (Space, Status)
        ensures { HasClosedSpace self result.1 result.0 }
    {
        match self {
            Space::Open(opened) => match opened.end() {
                Ok(table) => (Space::Closed(table.into_words()), Status::Done),
                Err((opened, status)) => (Space::Open(opened), status),
            },
            Space::Closed(words) => (Space::Closed(words), Status::WrongState),
            Space::Gone => (Space::Gone, Status::WrongState),
        }
    }

    // What an open space has. One that is not comes back.
    fn into_opened(self) -> Result<Opened, Space>
        ensures ok { IfOk result (λ opened. self ≡ Open opened) }
        ensures err { IfErr result (λ space. (space ≡ self) × (is_open self ≡ false)) }
    {
        match self {
            Space::Open(opened) => Ok(opened),
            Space::Closed(words) => Err(Space::Closed(words)),
            Space::Gone => Err(Space::Gone),
        }
    }

    /// Whether it is open.
    pub(crate) fn is_open(&self) -> bool
        ensures { result ≡ is_open self.now }
    {
        matches!(self, Space::Open(_))
    }

    /// A session of it, where it is open.
    pub(crate) fn connect(&mut self, alloc: Global) -> Result<Box<Session>, Status>
        ensures ok { IfOk result (λ b. HasConnectedTo self.old b.value self.new) }
        ensures err { IfErr result (λ e. (self.new ≡ self.old) × IsNotConnected self.old e) }
    {
        match self {
            Space::Open(opened) => opened.connect(alloc),
            _ => Err(Status::WrongState),
        }
    }

    /// The end of a session of it, where it is open.
    pub(crate) fn disconnect(&mut self, session: Box<Session>) -> Result<(), (Box<Session>, Status)>
        requires from { IsFromSpace self.old session.value }
        ensures ok { IfOk result (λ x. HasDisconnectedFrom self.old session.value self.new) }
        ensures err { IfErr result (λ r. (r.0.value ≡ session.value) × (self.new ≡ self.old)
            × IsNotDisconnected self.old session.value r.1) }
    {
        match self {
            Space::Open(opened) => opened.disconnect(session),
            _ => Err((session, Status::WrongState)),
        }
    }
}

// Gives up a space that was not shared, with its passes.
fn give_up(mut table: Table, mut pool: Vec<Pass>)
    requires rest { AreAtRest table pool.items }
    requires whole { IsWhole table pool.items }
{
    disconnect_all(&mut table, &mut pool);
    table.discard();
    pool.destroy_empty();
}

// One share less of a table. The space has another, so it is not the last.
fn leak(table: Arc<Table, Global>) {
    if let Some(table) = Arc::into_inner(table) {
        let _ = unsafe { ManuallyDrop::new_unchecked(table) };
    }
}
