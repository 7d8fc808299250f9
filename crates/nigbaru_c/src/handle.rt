//! Handles.
ghost use Rattle.std.specs.{Prelude.{◌≡◌, Some, None}, declared.option.Option.Option, Option.MatchOption};
ghost use Rattle.nigbaru_c.specs.{declared.chair.Chair.Chair as ChairOf, Held.{held_coded, holds}};

use crate::chair::Chair;
use crate::parts::Parts;
use std::alloc::Global;
use std::marker::Model;
use std::mem::replace;
use std::ptr::null_mut;

/// A pointer that C keeps. It is null, or owns a box with a store or a session. Dropping it doesn't free the
/// box.
#[repr(C)]
#[derive(Drop)]
pub struct Handle {
    /// The address of the box, or null.
    at: *mut u8,
    pub ghost held: { Option ChairOf } by { held_coded },
}

impl Model for Handle {
    ghost also_owns = { λ h. holds h.at h.held };
}

impl Handle {
    /// The handle that holds nothing.
    pub(crate) fn none() -> Handle
        ensures { result.held ≡ None }
    {
        Handle { at: null_mut() }
    }

    /// The handle of a box's parts.
    fn of_parts(parts: Parts<Chair, Global>) -> Handle
        ensures { result.held ≡ Some parts.value }
    {
        let Parts { ptr, alloc: _ } = parts;
        Handle { at: ptr as *mut u8 }
    }

    /// Takes the handle apart: the parts of its box, whose allocator is `alloc`, or `None` if it is null.
    fn into_parts(self, alloc: Global) -> Option<Parts<Chair, Global>>
        ensures { MatchOption result (self.held ≡ None) (λ parts. self.held ≡ Some parts.value) }
    {
        let Handle { at } = self;
        if at.is_null() {
            None
        } else {
            Some(Parts {
                ptr: at as *mut Chair,
                alloc,
            })
        }
    }
}

impl Handle {
    /// Puts a box into an empty handle.
    pub(crate) fn fill(&mut self, chair: Box<Chair>)
        requires { self.old.held ≡ None }
        ensures { self.new.held ≡ Some chair.value }
    {
        *self = Handle::of_parts(Parts::of(chair));
    }

    /// Takes the box out of the handle, which is empty then. Returns `None` if it was empty before.
    pub(crate) fn empty(&mut self, alloc: Global) -> Option<Box<Chair>>
        ensures taken { MatchOption result (self.old.held ≡ None) (λ chair. self.old.held ≡ Some chair.value) }
        ensures left { self.new.held ≡ None }
    {
        match replace(self, Handle::none()).into_parts(alloc) {
            Some(parts) => Some(parts.into_box()),
            None => None,
        }
    }
}

// Proved (c, handle-moves): A handle may go to another thread.
unsafe impl Send for Handle {}
