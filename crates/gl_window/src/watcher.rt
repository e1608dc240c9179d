//! Watchers read snapshots without a latch.

ghost use Rattle.std.specs.Prelude.{◌≡◌, ◌≤◌};
ghost use mathlib.Core.List.{IsPrefix};
ghost use Rattle.gl_window.specs.Boards.{Ends, Fine, last_epoch};

use crate::history::Line;
use crate::seats::Chair;
use crate::window::Window;
use gl_waits::Board;
use std::marker::Model;
use std::sync::Arc;

/// A reader of snapshots, with a seat of its own. Contracts see the longest list that it has read,
/// with its book and the detection setting.
pub struct Watcher {
    pub(crate) window: Arc<Window>,
    pub(crate) last: Line,
    pub(crate) chair: Chair,
}

impl Model for Watcher {
    ghost use Rattle.std.specs.Prelude.{◌≡◌};
    ghost use Rattle.std.specs.Arc.{arc_value};
    ghost use Rattle.gl_window.specs.Strip.{Strip};
    ghost use Rattle.gl_window.specs.Window.{GoesOn};

    ghost Value = { Strip };

    ghost view = { λ w. w.last };

    ghost invariant = { λ w. GoesOn (arc_value w.window).first w.last × (w.chair.token.table_id ≡ (arc_value w.window).seats.table.shared.table_id) };
}

impl Watcher {
    /// The last snapshot of a list that continues the one of the last look: a snapshot that was shown,
    /// and never an older one than before. In it no slot waits for itself or for a free slot, and with
    /// detection at block no slot is on a cycle of waits. Acquires no latch and allocates no memory.
    pub fn look(&mut self) -> Board
        ensures board { Ends self.new.list result }
        ensures later { IsPrefix self.old.list self.new.list }
        ensures epoch { last_epoch 0 self.old.list ≤ result.epoch }
        ensures fine { Fine self.new.detect result }
        ensures of { (self.new.book ≡ self.old.book) × (self.new.detect ≡ self.old.detect) }
    {
        if let Some(found) = self.window.look() {
            self.last.learn(found);
        }
        *self.last.board()
    }
}

impl Drop for Watcher {
    fn drop(self) {
        let Watcher {
            window,
            last: _,
            chair,
        } = self;
        window.seats.leave(chair);
    }
}
