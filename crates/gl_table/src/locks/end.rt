//! The end of a transaction.

ghost use Rattle.std.specs.Prelude.{◌<◌, ◌≡◌, false};
ghost use Rattle.gl_model.specs.Calls.{released};
ghost use Rattle.gl_model.specs.State.{is_wait, status_of};
ghost use Rattle.gl_table.specs.inside.Locks.{state_at};
ghost use Rattle.gl_table.specs.inside.Slots.{CanTell, ListsLose, TellsOthers};

use crate::locks::Locks;
use crate::txn_entry::TxnEntry;
use gl_model::{Status, Told};
use gl_slots::Slot;

impl Locks {
    /// Cancels the wait of a slot, if it has one, releases all that it holds, and frees it. The
    /// waiters of each node are granted from the front.
    pub(crate) fn abort(&mut self, slot: Slot, told: &mut Told)
        requires has_entry { slot < (state_at self.old).most }
        requires tell { CanTell told.old.items (λ u. is_wait (status_of (state_at self.old) u)) }
        ensures state { state_at self.new ≡ released (state_at self.old) slot }
        ensures tells { TellsOthers slot (state_at self.old) (state_at self.new) told.old.items told.new.items }
        ensures orders { ListsLose self.old.ledger.lists.items self.new.ledger.lists.items }
    {
        if let Some(
            TxnEntry {
                status: Status::Waiting { node, .. },
                ..
            },
        ) = self.ledger.txn_entry(slot)
        {
            self.withdraw(slot, node, Status::Active, told);
        }
        self.end(slot, told);
    }

    /// Releases all that a slot holds, which does not wait, and frees the slot. The waiters of each
    /// node are granted from the front.
    pub(crate) fn end(&mut self, slot: Slot, told: &mut Told)
        requires has_entry { slot < (state_at self.old).most }
        requires quiet { is_wait (status_of (state_at self.old) slot) ≡ false }
        requires tell { CanTell told.old.items (λ u. is_wait (status_of (state_at self.old) u)) }
        ensures state { state_at self.new ≡ released (state_at self.old) slot }
        ensures tells { TellsOthers slot (state_at self.old) (state_at self.new) told.old.items told.new.items }
        ensures orders { ListsLose self.old.ledger.lists.items self.new.ledger.lists.items }
    {
        self.ledger
            .leave_all(&self.graph, slot, &mut self.granted, told);
        self.ledger.lists[slot as usize].clear();
        self.ledger.txn_entries.leave(slot);
    }
}
