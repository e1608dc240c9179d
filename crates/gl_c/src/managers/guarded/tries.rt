//! Tries of paths and rows.

ghost use Rattle.std.specs.Prelude.{◌≡◌, []};
ghost use Rattle.gl_c.specs.locks.Tries.{tried_path_call, tried_row_call};
ghost use Rattle.gl_c.specs.managers.Carries.{Performs};

use super::Guarded;
use crate::managers::showing::keep_nobody;
use gl_modes::{Mode, NodeId};
use gl_rows::Row;
use gl_table::{Told, TxnId};
use gl_waiting::{Keep, RowTried, Tried};

impl Guarded {
    /// Tries to lock a node after what must be held above it, and puts the notices into an empty list.
    /// Watchers are shown one snapshot after all of it.
    pub(crate) fn try_path(
        &mut self,
        txn: TxnId,
        node: NodeId,
        mode: Mode,
        keep: Keep,
        told: &mut Told,
    ) -> Tried
        requires empty { told.old.items ≡ [] }
        ensures { Performs self.old (tried_path_call keep txn (node, mode)) result told.new.items self.new }
    {
        self.waiting.law();
        let before = self.waiting.manager().accepted();
        let (tried, off) = self.waiting.try_path(txn, node, mode, keep, told);
        if self.waiting.manager().accepted() == before {
            return tried;
        }
        self.ended = off.ended;
        self.resting.rouse(&self.waiting, Some(txn.slot));
        keep_nobody(&mut self.showing, off.went_on);
        self.show_if_due();
        tried
    }

    /// Tries to lock a row that has these keys, and puts the notices into an empty list. Watchers are
    /// shown one snapshot after all of it.
    pub(crate) fn try_row(
        &mut self,
        txn: TxnId,
        row: Row,
        keys: &[u64],
        mode: Mode,
        told: &mut Told,
    ) -> RowTried
        requires empty { told.old.items ≡ [] }
        ensures { Performs self.old (tried_row_call (record { txn = txn; row = row; keys = keys.entry; mode = mode })) result told.new.items self.new }
    {
        self.waiting.law();
        let before = self.waiting.manager().accepted();
        let (tried, off) = self.waiting.try_row(txn, row, keys, mode, told);
        if self.waiting.manager().accepted() == before {
            return tried;
        }
        self.ended = off.ended;
        self.resting.rouse(&self.waiting, Some(txn.slot));
        keep_nobody(&mut self.showing, off.went_on);
        self.show_if_due();
        tried
    }
}
