//! The watcher that C's pointer points to.

ghost use Rattle.std.specs.Prelude.{◌≡◌};
ghost use Rattle.gl_c.specs.watchers.Watching.{IsLook};

use gl_waits::Board;
use std::marker::Model;

/// A watcher. To a contract it is the longest list of boards that it saw.
#[derive(Drop)]
pub(crate) struct Watcher {
    eye: gl_window::Watcher,
}

impl Model for Watcher {
    ghost use Rattle.gl_window.specs.Strip.{Strip};

    ghost Value = { Strip };

    ghost view = { λ w. w.eye };
}

impl Watcher {
    pub(crate) fn of(eye: gl_window::Watcher) -> Watcher
        ensures { result ≡ eye }
    {
        Watcher { eye }
    }

    /// The last board that was shown, never older than one before.
    pub(crate) fn look(&mut self) -> Board
        ensures { IsLook self.old result self.new }
    {
        self.eye.look()
    }
}
