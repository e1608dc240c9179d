//! What a call set off.

ghost use Rattle.std.specs.Prelude.{IsTrue, ◌↔◌};
ghost use Rattle.gl_waiting.specs.Asking.{IsNothing};

use gl_slots::Slots;

/// What a call set off.
#[derive(Clone, Copy, PartialEq, Eq, Debug)]
pub struct SetOff {
    /// The slots whose wait the call may have ended.
    pub ended: Slots,
    /// Whether begins were handed on after it.
    pub went_on: bool,
}

impl SetOff {
    /// Nothing was set off.
    pub(crate) fn nothing() -> SetOff
        ensures { IsNothing result }
    {
        SetOff {
            ended: Slots::empty(),
            went_on: false,
        }
    }

    /// Whether nothing was set off.
    pub(crate) fn is_nothing(self) -> bool
        ensures { IsTrue result ↔ IsNothing self }
    {
        self.ended.is_empty() && !self.went_on
    }
}
