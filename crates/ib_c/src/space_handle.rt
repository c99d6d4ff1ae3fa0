//! The handle of a space: a box, or none.

ghost use Rattle.std.specs.Prelude.{◌≡◌, Option, Some, None, IfNone, IfSome, is_some};
ghost use Rattle.ib_c.specs.declared.space.Space.{Space as SpaceValue};
ghost use Rattle.ib_c.specs.Handles.{live_of};
ghost use Rattle.ib_c.specs.SpaceHandle.{held_at, held_coded};

use crate::parts::Parts;
use crate::space::Space;
use std::alloc::Global;
use std::marker::Model;
use std::mem::replace;
use std::ptr;

/// What a handle points to, as C sees it: nothing that it can read.
#[repr(C)]
#[derive(Drop)]
pub struct SpaceBox {
    pub(crate) mark: u8,
}

/// The pointer of a box of a space, with the box.
#[repr(C)]
#[derive(Drop)]
pub struct SpaceHandle {
    pub(crate) at: *mut SpaceBox,
    pub(crate) alloc: Global,
    pub ghost held: { Option SpaceValue } by { held_coded },
}

impl Model for SpaceHandle {
    ghost also_owns = { λ h. held_at h.alloc h.at h.held };
}

impl SpaceHandle {
    fn empty(alloc: Global) -> SpaceHandle
        ensures { result.held ≡ None }
    {
        SpaceHandle {
            at: ptr::null_mut(),
            alloc,
        }
    }

    fn of_parts(parts: Parts<Space, Global>) -> SpaceHandle
        ensures { result.held ≡ Some parts.value }
    {
        let Parts { ptr, alloc } = parts;
        SpaceHandle {
            at: ptr as *mut SpaceBox,
            alloc,
        }
    }

    fn into_parts(self) -> Parts<Space, Global>
        requires { (x : SpaceValue) × (self.held ≡ Some x) }
        ensures { self.held ≡ Some result.value }
    {
        let SpaceHandle { at, alloc } = self;
        Parts {
            ptr: at as *mut Space,
            alloc,
        }
    }
}

/// The handle of a space: `live` is 1 where it has one, and else 0. C keeps it in a place of its own, all zeros at first,
/// and reads or writes neither field.
#[repr(C)]
#[derive(Drop)]
pub struct SpaceSlot {
    pub(crate) live: u32,
    pub(crate) handle: SpaceHandle,
    ghost told: { live ≡ live_of handle.held },
}

impl SpaceSlot {
    /// Whether it has one.
    pub(crate) fn is_live(&self) -> bool
        ensures { result ≡ is_some self.now.handle.held }
    {
        self.live > 0
    }

    /// The space out of it, where it has one.
    pub(crate) fn take(&mut self, alloc: Global) -> Option<Box<Space>>
        ensures some { IfSome result (λ b. self.old.handle.held ≡ Some b.value) }
        ensures none { IfNone result (self.old.handle.held ≡ None) }
        ensures left { self.new.handle.held ≡ None }
    {
        let none = SpaceSlot {
            live: 0,
            handle: SpaceHandle::empty(alloc),
        };
        let SpaceSlot { live, handle } = replace(self, none);
        if live == 0 {
            return None;
        }
        Some(handle.into_parts().into_box())
    }

    /// A space into it. What it had is let go.
    pub(crate) fn put(&mut self, space: Box<Space>)
        ensures { self.new.handle.held ≡ Some space.value }
    {
        *self = SpaceSlot {
            live: 1,
            handle: SpaceHandle::of_parts(Parts::of(space)),
        };
    }
}
