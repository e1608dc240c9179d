//! A watcher behind a raw pointer.

ghost use Rattle.std.specs.Prelude.{◌≡◌, Option, None, Some, is_some, true};
ghost use Rattle.gl_window.specs.Strip.{Strip};
ghost use Rattle.gl_c.specs.watchers.Posted.{owns_watcher};

use crate::watchers::watcher::Watcher;
use std::alloc::Global;
use std::marker::{Model, Send};

/// The place of a watcher, or of none: what C stores of one.
#[repr(C)]
#[derive(Drop)]
pub struct Posted {
    at: *mut u8,
    alloc: Global,
    pub(crate) ghost known: { Option Strip },
}

impl Model for Posted {
    ghost also_owns = { λ posted. owns_watcher posted.alloc posted.at posted.known };
}

// A watcher may move to another thread, and so may its place.
unsafe impl Send for Posted {}

impl Posted {
    /// A place without a watcher.
    pub(crate) fn none(alloc: Global) -> Posted
        ensures { result.known ≡ None }
    {
        Posted {
            at: std::ptr::null_mut(),
            alloc,
        }
    }

    /// The place of this watcher, which then owns it.
    pub(crate) fn of(watcher: Box<Watcher, Global>) -> Posted
        ensures { result.known ≡ Some watcher.value }
    {
        let (at, alloc) = Box::into_raw_with_allocator(watcher);
        Posted {
            at: at.cast::<u8>(),
            alloc,
        }
    }

    /// The watcher at this place, which must have one.
    pub(crate) fn into_watcher(self) -> Box<Watcher, Global>
        requires { is_some self.known ≡ true }
        ensures { Some result.value ≡ self.known }
    {
        let Posted { at, alloc } = self;
        unsafe { Box::from_raw(alloc, at.cast::<Watcher>()) }
    }
}
