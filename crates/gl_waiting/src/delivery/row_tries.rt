//! Tries of rows.

ghost use Rattle.std.specs.Prelude.{◌≡◌, ◌⊎◌, ◌<◌, ◌≤◌, [], Some, false};
ghost use Rattle.gl_slots.specs.Slots.{HasNoSlot};
ghost use Rattle.gl_catalog.specs.Manager.{state_of};
ghost use Rattle.gl_catalog.specs.Paths.{lock_of};
ghost use Rattle.gl_rows.specs.Releasing.{no_node};
ghost use Rattle.gl_rows.specs.Rows.{name_of};
ghost use Rattle.gl_wakes.specs.Wakes.{HasEnded};
ghost use Rattle.gl_waiting.specs.Going.{IsRunOf};
ghost use Rattle.gl_waiting.specs.RowTries.{BeginsNoWait, BlocksNobody, HoldsTried, IsHeldIn, KeepsQueues, NotesRow, TriesRow, busy_node, was_held};

use super::Delivery;
use crate::tries::{RowTried, is_released, refused_at, row_refused, row_tried_as};
use gl_catalog::Manager;
use gl_modes::{Mode, NodeId};
use gl_rows::{Row, RowCall, RowRefusal};
use gl_slots::Slots;
use gl_table::{Told, TxnId};

impl Delivery {
    /// Tries to lock a row that has these keys. A row without a node gets one, and so may a row whose node nobody holds or
    /// waits for: it is locked as by `RowCall::Lock`, which waits for nobody then. Any other row is locked by the node that
    /// it has, if that is granted at once, and then as a row, so that it is released as one and its keys are compared.
    ///
    /// If this last lock is refused, a row that the transaction did not hold before is released again, and the refusal is
    /// answered. If it held the row before, or the release is refused too, the row stays held, and the answer is
    /// `OtherKeys`. The notices of the release are put into an empty list. Answers also the slots whose wait it may have
    /// ended.
    pub fn try_row(
        &mut self,
        txn: TxnId,
        row: Row,
        keys: &[u64],
        mode: Mode,
        told: &mut Told,
    ) -> (RowTried, Slots)
        requires empty { told.old.items ≡ [] }
        ensures tries { TriesRow (record { txn = txn; row = row; keys = keys.entry; mode = mode }) self.old result.0 told.new.items result.1 self.new }
        ensures holds { HoldsTried txn mode result.0 (state_of self.new.manager) }
        ensures waits { BeginsNoWait (state_of self.old.manager) (state_of self.new.manager) }
        ensures queues { KeepsQueues result.0 (state_of self.old.manager) (state_of self.new.manager) }
        ensures run { IsRunOf (lock_of txn (no_node, mode)) (state_of self.old.manager) (state_of self.new.manager) }
        ensures ended { HasEnded (state_of self.old.manager) (state_of self.new.manager) result.1 }
        ensures counted { HasNoSlot result.1 ⊎ (self.old.manager.accepted < self.new.manager.accepted) }
        ensures low { self.old.manager.accepted ≤ self.new.manager.accepted }
    {
        self.law();
        let Some(node) = self.busy_node(row) else {
            let (locked, ended) = self.lock_row(txn, row, keys, mode, told);
            return (row_tried_as(locked), ended);
        };
        let held = was_held(self.manager(), txn, node);
        match self.try_at(txn, node, mode, told) {
            Ok(mode) => self.note_row(txn, row, keys, node, mode, held, told),
            Err(refusal) => (refused_at(node, refusal), Slots::empty()),
        }
    }

    /// The node of a row that somebody holds or waits for.
    fn busy_node(&self, row: Row) -> Option<NodeId>
        ensures { result ≡ busy_node (state_of self.now.manager) (name_of self.now.rows row) }
    {
        let node = self.node(row)?;
        if self.manager().is_idle(node) {
            return None;
        }
        Some(node)
    }

    /// Locks a row as a row whose node a try has locked in this mode: it is held already, so this waits for nobody. If it
    /// is refused, a row that was not held before is released again. Answers also the slots whose wait that may have ended.
    fn note_row(
        &mut self,
        txn: TxnId,
        row: Row,
        keys: &[u64],
        node: NodeId,
        mode: Mode,
        held: bool,
        told: &mut Told,
    ) -> (RowTried, Slots)
        requires empty { told.old.items ≡ [] }
        requires named { name_of self.old.rows row ≡ Some node }
        requires is_held { IsHeldIn (state_of self.old.manager) txn node mode }
        requires quiet { held ≡ false → BlocksNobody (state_of self.old.manager) txn node }
        ensures notes { NotesRow held node (record { txn = txn; row = row; keys = keys.entry; mode = mode }) self.old result.0 told.new.items result.1
            self.new }
        ensures holds { HoldsTried txn mode result.0 (state_of self.new.manager) }
        ensures waits { BeginsNoWait (state_of self.old.manager) (state_of self.new.manager) }
        ensures queues { KeepsQueues result.0 (state_of self.old.manager) (state_of self.new.manager) }
        ensures run { IsRunOf (lock_of txn (no_node, mode)) (state_of self.old.manager) (state_of self.new.manager) }
        ensures ended { HasEnded (state_of self.old.manager) (state_of self.new.manager) result.1 }
        ensures counted { HasNoSlot result.1 ⊎ (self.old.manager.accepted < self.new.manager.accepted) }
        ensures low { self.old.manager.accepted ≤ self.new.manager.accepted }
    {
        self.law();
        let (locked, ended) = self.lock_row(txn, row, keys, mode, told);
        let refusal = match locked {
            Ok(_) => return (row_tried_as(locked), ended),
            Err(refusal) => refusal,
        };
        if held {
            return (RowTried::OtherKeys { node, mode }, Slots::empty());
        }
        let (answer, more) = self.serve_row(RowCall::Unlock { txn, row }, told);
        if is_released(answer) {
            return (row_refused(refusal), more);
        }
        (RowTried::OtherKeys { node, mode }, more)
    }
}

/// Whether a transaction that lives holds this node.
fn was_held(manager: &Manager, txn: TxnId, node: NodeId) -> bool
    ensures { result ≡ was_held (state_of manager.now) txn node }
{
    match manager.mode_on(txn, node) {
        Some(mode) => mode != Mode::NL,
        None => false,
    }
}
