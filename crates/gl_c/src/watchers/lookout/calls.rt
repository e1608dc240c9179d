//! The watcher at its place: put there, removed, and used.

ghost use Rattle.std.specs.Prelude.{◌≡◌, None, Some, is_some};
ghost use Rattle.std.specs.Option.{option_map};
ghost use Rattle.gl_c.specs.watchers.Lookout.{watcher_in};
ghost use Rattle.gl_c.specs.watchers.Watching.{Sees};

use super::Lookout;
use crate::answers::reply::Reply;
use crate::boards::board::Board;
use crate::crossing::hand_over;
use crate::numbers::{DONE, NO_WATCHER};
use crate::watchers::lookout::posted::Posted;
use crate::watchers::watcher::Watcher;
use std::alloc::Global;
use std::mem::replace;

impl Lookout {
    fn none(alloc: Global) -> Lookout
        ensures { watcher_in result ≡ None }
    {
        Lookout {
            is_open: false,
            posted: Posted::none(alloc),
            alloc,
        }
    }

    /// The place of this watcher.
    pub(crate) fn of(alloc: Global, watcher: Box<Watcher, Global>) -> Lookout
        ensures { watcher_in result ≡ Some watcher.value }
    {
        Lookout {
            is_open: true,
            posted: Posted::of(hand_over(watcher)),
            alloc,
        }
    }

    /// Whether there is a watcher.
    pub(crate) fn has_watcher(&self) -> bool
        ensures { result ≡ is_some (watcher_in self.now) }
    {
        self.is_open
    }

    /// Removes the watcher, if there is one.
    pub(crate) fn take(&mut self) -> Option<Box<Watcher, Global>>
        ensures taken { option_map (λ watcher. watcher.value) result ≡ watcher_in self.old }
        ensures none { watcher_in self.new ≡ None }
    {
        let alloc = self.alloc;
        let Lookout {
            is_open,
            posted,
            ..
        } = replace(self, Lookout::none(alloc));
        if is_open {
            Some(posted.into_watcher())
        } else {
            None
        }
    }

    /// Writes the board of a look.
    pub(crate) fn look(&mut self, board: &mut Board) -> Reply
        ensures { Sees (watcher_in self.old) result board.old board.new (watcher_in self.new) }
    {
        let alloc = self.alloc;
        let Some(mut watcher) = self.take() else {
            return Reply::with_status(NO_WATCHER);
        };
        board.put(watcher.look());
        *self = Lookout::of(alloc, watcher);
        Reply::with_status(DONE)
    }
}
