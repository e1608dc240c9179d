//! The publisher, which shows snapshots.

ghost use Rattle.std.specs.Prelude.{◌≡◌, ◌≤◌, ◌⊎◌, ◌++◌, ◌∷◌, [], true, IfOk};
ghost use Rattle.gl_window.specs.Boards.{Fine, last_epoch};
ghost use Rattle.gl_window.specs.Rules.{head_of};
ghost use Rattle.gl_window.specs.Window.{GoesOn};

use crate::history::{Head, Line};
use crate::watcher::Watcher;
use crate::window::Window;
use gl_model::Detect;
use gl_waits::Board;
use std::alloc::{AllocError, Global};
use std::marker::Model;
use std::sync::Arc;

/// Why no watcher is made.
#[derive(Clone, Copy, PartialEq, Eq, Debug)]
pub enum WatchFault {
    /// There are eight watchers already.
    TooMany,
    NoMemory,
}

/// The publisher of snapshots. Contracts see the list of all that it has shown, with its book and the
/// detection setting.
#[derive(Drop)]
pub struct Publisher {
    alloc: Global,
    window: Arc<Window>,
    head: Head,
    line: Line,
}

impl Model for Publisher {
    ghost use Rattle.std.specs.Prelude.{◌≡◌};
    ghost use Rattle.std.specs.Arc.{arc_value};
    ghost use Rattle.gl_window.specs.Rules.{head_of};
    ghost use Rattle.gl_window.specs.Strip.{Strip};
    ghost use Rattle.gl_window.specs.Window.{GoesOn};

    ghost Value = { Strip };

    ghost view = { λ p. p.line };

    ghost invariant = { λ p. (p.head ≡ head_of p.line.book) × GoesOn (arc_value p.window).first p.line };
}

impl Publisher {
    /// A publisher that shows this snapshot.
    pub fn new(alloc: Global, board: Board, detect: Detect) -> Result<Publisher, AllocError>
        requires { Fine detect board }
        ensures { IfOk result (λ p. (p.list ≡ board ∷ []) × (p.detect ≡ detect)) }
    {
        let (head, line) = Line::open(alloc, board, detect)?;
        let window = Window::new(alloc, line.again()?)?;
        let _ = window.show(&line);
        let window = Arc::new(alloc, window)?;
        Ok(Publisher {
            alloc,
            window,
            head,
            line,
        })
    }

    /// Whether there is a watcher.
    pub fn is_watched(&self) -> bool {
        self.window.seats.find().any
    }

    /// Shows a snapshot after all earlier ones, whole, and says whether it did: always, if memory for
    /// it could be allocated. A snapshot that was not shown may be in the list from the next one on.
    pub fn publish(&mut self, board: Board) -> bool
        requires rises { last_epoch 0 self.old.list ≤ board.epoch }
        requires fine { Fine self.old.detect board }
        ensures shown { result ≡ true → self.new.list ≡ self.old.list ++ board ∷ [] }
        ensures list { (self.new.list ≡ self.old.list) ⊎ (self.new.list ≡ self.old.list ++ board ∷ []) }
        ensures of { (self.new.book ≡ self.old.book) × (self.new.detect ≡ self.old.detect) }
    {
        add_and_show(self.alloc, &self.window, &self.head, &mut self.line, board)
    }

    /// A watcher that knows all that was shown, with this snapshot as the last. There are at most
    /// eight watchers at once.
    pub fn watch(&mut self, board: Board) -> Result<Watcher, WatchFault>
        requires rises { last_epoch 0 self.old.list ≤ board.epoch }
        requires fine { Fine self.old.detect board }
        ensures watcher { IfOk result (λ watcher. (watcher ≡ self.new) × (self.new.list ≡ self.old.list ++ board ∷ [])) }
        ensures list { (self.new.list ≡ self.old.list) ⊎ (self.new.list ≡ self.old.list ++ board ∷ []) }
        ensures of { (self.new.book ≡ self.old.book) × (self.new.detect ≡ self.old.detect) }
    {
        let chair = match self.window.seats.take() {
            Ok(chair) => chair,
            Err(_) => return Err(WatchFault::TooMany),
        };
        let shown = add_and_show(self.alloc, &self.window, &self.head, &mut self.line, board);
        if shown {
            if let (Ok(window), Ok(last)) = (Arc::try_clone(&self.window), self.line.again()) {
                return Ok(Watcher {
                    window,
                    last,
                    chair,
                });
            }
        }
        self.window.seats.leave(chair);
        Err(WatchFault::NoMemory)
    }
}

/// Adds a snapshot to the list and shows the list, and says whether it did. A snapshot that was not
/// shown may be in the list.
fn add_and_show(alloc: Global, window: &Window, head: &Head, line: &mut Line, board: Board) -> bool
    requires of { (head.now ≡ head_of line.old.book) × GoesOn window.now.first line.old }
    requires rises { last_epoch 0 line.old.list ≤ board.epoch }
    requires fine { Fine line.old.detect board }
    ensures shown { result ≡ true → line.new.list ≡ line.old.list ++ board ∷ [] }
    ensures list { (line.new.list ≡ line.old.list) ⊎ (line.new.list ≡ line.old.list ++ board ∷ []) }
    ensures of { (line.new.book ≡ line.old.book) × (line.new.detect ≡ line.old.detect) }
    ensures goes_on { GoesOn window.now.first line.new }
{
    let Ok(board) = Arc::new(alloc, board) else {
        return false;
    };
    let Some(next) = line.add(head, board) else {
        return false;
    };
    *line = next;
    window.show(line)
}
