//! What a session was told, and what a watcher knows.
ghost use Rattle.std.specs.Prelude.{◌≡◌};
ghost use Rattle.gl_window.specs.Boards.{IsLawful, Ends, last_epoch};

use crate::naming::Naming;
use gl_waits::Board;
use gl_window::Line;
use std::marker::{Model, PhantomData};

/// A prefix of the list that a table published. To a contract it is that list.
#[derive(Drop)]
pub struct Note<N: Naming> {
    pub(crate) line: Line,
    pub(crate) of: PhantomData<N>,
}

impl<N: Naming> Model for Note<N> {
    ghost use Rattle.std.specs.Prelude.{◌≡◌, List};
    ghost use Rattle.gl_waits.specs.declared.board.Board.{Board};
    ghost use Rattle.gl_window.specs.Boards.{IsLawful};

    ghost Value = { List Board };

    ghost view = { λ s. s.line.list };

    ghost invariant = { λ s. (s.line.book ≡ N.book) × (s.line.detect ≡ N.detect) × IsLawful N.detect N.first s.line.list };
}

impl<N: Naming> Note<N> {
    pub fn epoch(&self) -> u64
        ensures { result ≡ last_epoch 0 self.now }
    {
        self.line.board().epoch
    }

    /// The last snapshot.
    pub fn board(&self) -> Board
        ensures last { Ends self.now result }
        ensures lawful { IsLawful N.detect N.first self.now }
        ensures epoch { result.epoch ≡ last_epoch 0 self.now }
    {
        *self.line.board()
    }
}
