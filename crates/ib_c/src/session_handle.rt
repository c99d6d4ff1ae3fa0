//! The handle of a session: a box, or none.

ghost use Rattle.std.specs.Prelude.{◌≡◌, Option, Some, None, IfNone, IfSome, is_some};
ghost use Rattle.ib_c.specs.SessionState.{SessionState};
ghost use Rattle.ib_c.specs.Handles.{live_of};
ghost use Rattle.ib_c.specs.SessionHandle.{held_at, held_coded};

use crate::parts::Parts;
use crate::session::Session;
use std::alloc::Global;
use std::marker::Model;
use std::mem::replace;
use std::ptr;

/// What a handle points to, as C sees it: nothing that it can read.
#[repr(C)]
#[derive(Drop)]
pub struct SessionBox {
    pub(crate) mark: u8,
}

/// The pointer of a box of a session, with the box.
#[repr(C)]
#[derive(Drop)]
pub struct SessionHandle {
    pub(crate) at: *mut SessionBox,
    pub(crate) alloc: Global,
    pub ghost held: { Option SessionState } by { held_coded },
}

impl Model for SessionHandle {
    ghost also_owns = { λ h. held_at h.alloc h.at h.held };
}

impl SessionHandle {
    fn empty(alloc: Global) -> SessionHandle
        ensures { result.held ≡ None }
    {
        SessionHandle {
            at: ptr::null_mut(),
            alloc,
        }
    }

    fn of_parts(parts: Parts<Session, Global>) -> SessionHandle
        ensures { result.held ≡ Some parts.value }
    {
        let Parts { ptr, alloc } = parts;
        SessionHandle {
            at: ptr as *mut SessionBox,
            alloc,
        }
    }

    fn into_parts(self) -> Parts<Session, Global>
        requires { (x : SessionState) × (self.held ≡ Some x) }
        ensures { self.held ≡ Some result.value }
    {
        let SessionHandle { at, alloc } = self;
        Parts {
            ptr: at as *mut Session,
            alloc,
        }
    }
}

// C may pass it to another thread.
unsafe impl Send for SessionHandle {}

/// The handle of a session: `live` is 1 where it has one, and else 0. C keeps it in a place of its own, all zeros at first,
/// and reads or writes neither field.
#[repr(C)]
#[derive(Drop)]
pub struct SessionSlot {
    pub(crate) live: u32,
    pub(crate) handle: SessionHandle,
    ghost told: { live ≡ live_of handle.held },
}

impl SessionSlot {
    /// Whether it has one.
    pub(crate) fn is_live(&self) -> bool
        ensures { result ≡ is_some self.now.handle.held }
    {
        self.live > 0
    }

    /// The session out of it, where it has one.
    pub(crate) fn take(&mut self, alloc: Global) -> Option<Box<Session>>
        ensures some { IfSome result (λ b. self.old.handle.held ≡ Some b.value) }
        ensures none { IfNone result (self.old.handle.held ≡ None) }
        ensures left { self.new.handle.held ≡ None }
    {
        let none = SessionSlot {
            live: 0,
            handle: SessionHandle::empty(alloc),
        };
        let SessionSlot { live, handle } = replace(self, none);
        if live == 0 {
            return None;
        }
        Some(handle.into_parts().into_box())
    }

    /// A session into it. What it had is let go.
    pub(crate) fn put(&mut self, session: Box<Session>)
        ensures { self.new.handle.held ≡ Some session.value }
    {
        *self = SessionSlot {
            live: 1,
            handle: SessionHandle::of_parts(Parts::of(session)),
        };
    }
}
