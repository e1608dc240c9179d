//! The published snapshots, on the side that publishes.

ghost use Rattle.std.specs.Prelude.{◌≡◌, ◌≤◌, [], drop, Some};
ghost use Rattle.std.specs.Arc.{arc_value};
ghost use Rattle.gl_window.specs.Boards.{Fine, IsLawful, last_epoch};
ghost use Rattle.gl_window.specs.Rules.{head_of};
ghost use Rattle.gl_shared.specs.State.{GainsIf};
ghost use Rattle.gl_shared.specs.Ties.{IsOf};

use crate::boards::{BoardWriter, Side, publish};
use crate::naming::Naming;
use crate::note::Note;
use gl_waits::Board;
use gl_window::{Head, Line};
use std::alloc::Global;
use std::marker::{Model, PhantomData};
use std::mem;
use std::sync::{Arc, Wait};

/// The writer of the published snapshots. To a contract it is the list that is shown.
pub struct Publisher<N: Naming> {
    pub(crate) alloc: Global,
    pub(crate) head: Arc<Head>,
    pub(crate) side: Option<Side>,
    pub(crate) of: PhantomData<N>,
}

impl<N: Naming> Model for Publisher<N> {
    ghost use Rattle.std.specs.Prelude.{◌≡◌, List, IsSomeAnd};
    ghost use Rattle.std.specs.Arc.{arc_value};
    ghost use Rattle.gl_waits.specs.declared.board.Board.{Board};
    ghost use Rattle.gl_window.specs.Rules.{head_of};
    ghost use Rattle.gl_shared.specs.Sides.{IsIdle, shown_by};
    ghost use Rattle.gl_shared.specs.Ties.{IsOf};
    ghost use Rattle.gl_shared.specs.Lists.{list_in};

    ghost Value = { List Board };

    ghost view = { λ p. list_in (λ s. (shown_by s).list) p.side };

    ghost invariant = { λ p. (arc_value p.head ≡ head_of N.book) × IsSomeAnd p.side (λ s. IsIdle s × IsOf N.book N.detect N.first (shown_by s)) };
}

impl<N: Naming> Publisher<N> {
    /// A publisher with the writer of a table's list.
    pub(crate) fn new(alloc: Global, head: Arc<Head>, writer: BoardWriter) -> Publisher<N>
        requires head { arc_value head ≡ head_of N.book }
        requires rest { (drop writer.behind writer.log.items ≡ []) × IsOf N.book N.detect N.first writer.desk.shown.value.line }
        ensures { result ≡ writer.desk.shown.value.line.list }
    {
        Publisher {
            alloc,
            head,
            side: Some(Side::Open(writer)),
            of: PhantomData,
        }
    }

    /// Publishes a snapshot at the end of the list, whole, and says whether there was memory for it; a
    /// closed side has none.
    pub(crate) fn publish<R: Wait>(&mut self, rt: &R, board: Board) -> bool
        requires rises { last_epoch 0 self.old ≤ board.epoch }
        requires fine { Fine N.detect board }
        ensures { GainsIf result self.old board self.new }
    {
        let Ok(board) = Arc::new(self.alloc, board) else {
            return false;
        };
        let (side, told) = match self.side.take() {
            Some(Side::Open(writer)) => publish(rt, writer, &self.head, board),
            Some(closed) => (closed, false),
            None => unreachable!(),
        };
        if let Some(old) = mem::replace(&mut self.side, Some(side)) {
            old.end(rt);
        }
        told
    }

    /// The list that is shown. If its last snapshot has as many owners as can be counted, this waits
    /// until there are fewer.
    pub(crate) fn note<R: Wait>(&self, rt: &R) -> Note<N>
        ensures same { result ≡ self.now }
        ensures lawful { IsLawful N.detect N.first self.now }
    {
        for _ in rt.forever() {
            if let Ok(line) = self.line().again() {
                return Note {
                    line,
                    of: PhantomData,
                };
            }
        }
        unreachable!()
    }

    /// The list that is shown, with its book.
    fn line(&self) -> &Line
        ensures list { result.now.list ≡ self.now }
        ensures of { IsOf N.book N.detect N.first result.now }
    {
        match &self.side {
            Some(Side::Open(writer)) => &writer.published().line,
            Some(Side::Closed(line)) => line,
            None => unreachable!(),
        }
    }

    /// What holds of the list.
    pub(crate) fn law(&self)
        ensures { IsLawful N.detect N.first self.now }
    {
        let _ = self.line();
    }

    /// Ends publishing.
    pub(crate) fn end<R: Wait>(self, rt: &R) {
        let Publisher {
            alloc: _,
            head: _,
            side,
            of: _,
        } = self;
        if let Some(side) = side {
            side.end(rt);
        }
    }
}
