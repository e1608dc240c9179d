//! Watchers read snapshots without a lock, and learn notes.
ghost use Rattle.std.specs.Prelude.{◌≡◌, ◌⊎◌, ◌≤◌, IfSome, IfNone, IfOk, Some};
ghost use mathlib.Core.List.{IsPrefix};
ghost use Rattle.gl_window.specs.Boards.{Ends, IsLawful, last_epoch};
ghost use Rattle.gl_window.specs.Rules.{head_of};
ghost use Rattle.gl_shared.specs.Ties.{IsOf};

use crate::boards::{BoardReader, BoardWriter};
use crate::naming::Naming;
use crate::note::Note;
use crate::rule::{Enter, Ties};
use gl_waits::Board;
use gl_window::Line;
use std::alloc::AllocError;
use std::marker::{Model, PhantomData};

/// A reader of snapshots. To a contract it is the longest list that it saw or was told; each other one
/// is a prefix of it.
#[derive(Drop)]
pub struct Watcher<N: Naming> {
    pub(crate) reader: Option<BoardReader>,
    pub(crate) last: Line,
    pub(crate) of: PhantomData<N>,
}

impl<N: Naming> Model for Watcher<N> {
    ghost use Rattle.std.specs.Prelude.{◌≡◌, List, Some, IsSomeAnd};
    ghost use Rattle.gl_waits.specs.declared.board.Board.{Board};
    ghost use Rattle.gl_window.specs.Rules.{head_of};
    ghost use Rattle.gl_shared.specs.Ties.{IsOf};

    ghost Value = { List Board };

    ghost view = { λ w. w.last.list };

    ghost invariant = { λ w. IsOf N.book N.detect N.first w.last
        × IsSomeAnd w.reader (λ r. r.place.me.0.client ≡ Some (record { head = head_of N.book; detect = N.detect })) };
}

impl<N: Naming> Watcher<N> {
    /// The last snapshot of a list that extends the list of the last look and that of each note
    /// learned. `None` if it cannot be read now.
    pub fn look(&mut self) -> Option<Board>
        ensures board { IfSome result (λ board. Ends self.new board × IsPrefix self.old self.new × IsLawful N.detect N.first self.new) }
        ensures later { IfSome result (λ board. last_epoch 0 self.old ≤ board.epoch) }
        ensures none { IfNone result (self.new ≡ self.old) }
    {
        let Some(reader) = self.reader.take() else {
            unreachable!()
        };
        match reader.enter_as::<Enter>() {
            Ok(reading) => {
                let found = reading.get().line.again();
                self.reader = Some(reading.leave());
                let Ok(found) = found else {
                    return None;
                };
                self.last.learn(found);
                Some(*self.last.board())
            }
            Err(reader) => {
                self.reader = Some(reader);
                None
            }
        }
    }

    /// From now on a look returns no less than the note.
    pub fn learn(&mut self, note: Note<N>)
        ensures old { IsPrefix self.old self.new }
        ensures note { IsPrefix note self.new }
        ensures one { (self.new ≡ self.old) ⊎ (self.new ≡ note) }
    {
        let Note { line, of: _ } = note;
        self.last.learn(line);
    }
}
