//! A session behind a raw pointer.

ghost use Rattle.std.specs.Prelude.{◌≡◌, Option, None, Some, is_some, true};
ghost use Rattle.gl_c.specs.managers.Guarded.{GuardedView};
ghost use Rattle.gl_c.specs.managers.Held.{owns_session};

use crate::managers::session::Session;
use std::alloc::Global;
use std::marker::{Model, Send};

/// The place of a session, or of none: what C stores of a manager.
#[repr(C)]
#[derive(Drop)]
pub struct Held {
    at: *mut u8,
    alloc: Global,
    pub(crate) ghost guarded: { Option GuardedView },
}

impl Model for Held {
    ghost also_owns = { λ held. owns_session held.alloc held.at held.guarded };
}

// A session may move to another thread, and so may its place.
unsafe impl Send for Held {}

impl Held {
    /// A place without a session.
    pub(crate) fn none(alloc: Global) -> Held
        ensures { result.guarded ≡ None }
    {
        Held {
            at: std::ptr::null_mut(),
            alloc,
        }
    }

    /// The place of this session, which then owns it.
    pub(crate) fn of(session: Box<Session, Global>) -> Held
        ensures { result.guarded ≡ Some session.value }
    {
        let (at, alloc) = Box::into_raw_with_allocator(session);
        Held {
            at: at.cast::<u8>(),
            alloc,
        }
    }

    /// The session at this place, which must have one.
    pub(crate) fn into_session(self) -> Box<Session, Global>
        requires { is_some self.guarded ≡ true }
        ensures { Some result.value ≡ self.guarded }
    {
        let Held { at, alloc } = self;
        unsafe { Box::from_raw(alloc, at.cast::<Session>()) }
    }
}
