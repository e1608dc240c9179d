//! Releasing and rekeying rows. Rows that nobody holds or waits for any more lose their nodes.
//!
//! A row keeps its node if the manager would refuse to forget it: a transaction still holds it or
//! waits for it, or no command can be counted any more. If the last transaction that asked for it ends
//! before the others, the row is left in its slot's set, and let go by a later release. `told` must be empty before each call. A
//! refused call changes nothing.

ghost use Rattle.std.specs.Prelude.{◌≡◌, None, [], true};
ghost use Rattle.gl_rows.specs.declared.row.Row.{Row as ARow};
ghost use Rattle.gl_rows.specs.Leaving.{LetsGoIn};
ghost use Rattle.gl_rows.specs.Releasing.{CommitsAndKeeps, GoesBackTo, LetsGoAtEnd, LetsGoMeanwhile, LetsLeftGo, LetsOwnGo, RekeysRow, UnlocksRow, no_end};
ghost use Rattle.gl_rows.specs.Rows.{has_asked, name_of};

use super::Rows;
use crate::answer::RowRefusal;
use crate::names::{let_each_go, let_go};
use crate::row::Row;
use crate::sets::{end_asking, keep_named, rows_in, take};
use gl_catalog::Manager;
use gl_modes::{NodeId, Refusal};
use gl_slots::Slot;
use gl_table::{Told, TxnId};

impl Rows {
    /// Releases a row's node, and grants waiters from the front of its queue. A row without a node
    /// counts as `NodeId::NONE`. Refused with `NotRows`, and then as `Manager::unlock_telling`.
    pub(crate) fn unlock(
        &mut self,
        manager: &mut Manager,
        t: TxnId,
        row: Row,
        told: &mut Told,
    ) -> Result<(), RowRefusal>
        requires empty { told.old.items ≡ [] }
        ensures { UnlocksRow manager.old self.old t row result told.new.items manager.new self.new }
    {
        let node = self.node_for(row)?;
        manager.unlock_telling(t, node, told)?;
        self.let_own_go(manager, t.slot, row);
        self.let_left_go(manager);
        Ok(())
    }

    /// Gives a row's node another key for one index of its file. A row without a node counts as
    /// `NodeId::NONE`. Refused with `NotRows`, and then as `Manager::rekey_telling`.
    pub(crate) fn rekey(
        &mut self,
        manager: &mut Manager,
        t: TxnId,
        row: Row,
        index: NodeId,
        key: u64,
        told: &mut Told,
    ) -> Result<(), RowRefusal>
        requires empty { told.old.items ≡ [] }
        ensures { RekeysRow manager.old self.old t row index key result told.new.items manager.new self.new }
    {
        let node = self.node_for(row)?;
        manager.rekey_telling(t, node, index, key, told)?;
        Ok(())
    }

    /// Lets go a row that the transaction in a slot released. It still asks for the row if that kept
    /// its node.
    fn let_own_go(&mut self, manager: &mut Manager, slot: Slot, row: Row)
        ensures { LetsOwnGo manager.old self.old slot row manager.new self.new }
    {
        if let_go(&mut self.names, manager, row).is_ok() {
            take(&mut self.asked, slot, row);
        }
    }

    /// Lets go the rows that the transaction in a slot asked for, which has ended, and the rows left.
    #[inline(always)]
    pub(super) fn let_go_at_end(&mut self, manager: &mut Manager, slot: Slot)
        ensures { LetsGoAtEnd manager.old self.old slot manager.new self.new }
    {
        if rows_in(&self.asked, slot).is_empty() && self.left.is_empty() {
            return; // The usual case.
        }
        let all = self.let_go_asked(manager, slot);
        end_asking(&mut self.asked, slot, &self.names, all);
        if rows_in(&self.asked, slot).is_empty() {
            self.left.remove(slot);
        } else {
            self.left.insert(slot);
        }
    }

    /// Lets go the rows that the transaction in a slot asked for, and the rows left. It still asks for
    /// them. Whether none of them has a node any more.
    #[inline(always)]
    pub(super) fn let_go_asked(&mut self, manager: &mut Manager, slot: Slot) -> bool
        ensures goes { LetsGoMeanwhile manager.old self.old slot manager.new self.new }
        ensures gone { result ≡ true → (row : ARow) → has_asked self.old slot row ≡ true → name_of self.new row ≡ None }
    {
        manager.law();
        let all = let_each_go(&mut self.names, manager, rows_in(&self.asked, slot));
        self.let_left_go(manager);
        all
    }

    /// Lets go the rows left.
    #[inline(always)]
    pub(super) fn let_left_go(&mut self, manager: &mut Manager)
        ensures { LetsLeftGo manager.old self.old [] no_end manager.new self.new }
    {
        if !self.left.is_empty() {
            self.let_each_left_go(manager);
        }
    }

    /// Lets go the rows left, slot by slot.
    fn let_each_left_go(&mut self, manager: &mut Manager)
        ensures { LetsLeftGo manager.old self.old [] no_end manager.new self.new }
    {
        let mut slots = self.left;
        while let Some(slot) = slots.take_lowest() {
            manager.law();
            self.let_go_in(manager, slot);
        }
    }

    /// Lets go the rows of a slot with rows left.
    fn let_go_in(&mut self, manager: &mut Manager, slot: Slot)
        ensures { LetsGoIn manager.old self.old slot manager.new self.new }
    {
        let_each_go(&mut self.names, manager, rows_in(&self.asked, slot));
        keep_named(&mut self.asked, slot, &self.names);
        if rows_in(&self.asked, slot).is_empty() {
            self.left.remove(slot);
        }
    }

    /// Rolls back to a savepoint: unlocks what the transaction locked since it had `mark` locks.
    /// Refused as `Manager::release_since_telling`.
    pub(crate) fn release_since(
        &mut self,
        manager: &mut Manager,
        t: TxnId,
        mark: usize,
        told: &mut Told,
    ) -> Result<usize, Refusal>
        requires empty { told.old.items ≡ [] }
        ensures { GoesBackTo t mark manager.old self.old result told.new.items manager.new self.new }
    {
        let released = manager.release_since_telling(t, mark, told)?;
        self.let_go_asked(manager, t.slot);
        Ok(released)
    }

    /// Commits a transaction and begins another in its slot that keeps its first `keep` locks; it asks
    /// for no row, since it holds intentions alone. Refused as `Manager::commit_keeping_telling`.
    pub(crate) fn commit_keeping(
        &mut self,
        manager: &mut Manager,
        t: TxnId,
        keep: usize,
        since: u64,
        told: &mut Told,
    ) -> Result<Option<TxnId>, Refusal>
        requires empty { told.old.items ≡ [] }
        ensures { CommitsAndKeeps t keep since manager.old self.old result told.new.items manager.new self.new }
    {
        let next = manager.commit_keeping_telling(t, keep, since, told)?;
        self.let_go_at_end(manager, t.slot);
        Ok(next)
    }
}
