//! Covered children are released.

ghost use Rattle.std.specs.Prelude.{◌≡◌, Some};
ghost use Rattle.gl_model.specs.Calls.{shed};
ghost use Rattle.gl_model.specs.State.{is_wait, status_of};
ghost use Rattle.gl_model.specs.declared.txn.Status.TheVariants.{Active};
ghost use Rattle.gl_table.specs.inside.Locks.{state_at};
ghost use Rattle.gl_table.specs.inside.Slots.{CanTell, ListsLose, TellsOthers};

use crate::locks::Locks;
use gl_lock_lists::LockList;
use gl_model::Told;
use gl_modes::NodeId;
use gl_slots::Slot;

impl Locks {
    /// Releases the children of a node that an active slot's lock on it covers. Their waiters are
    /// granted from the front.
    ///
    /// What is covered is judged before any of it is released, and marked in the slot's list, which
    /// is kept apart meanwhile.
    pub(crate) fn shed(&mut self, slot: Slot, node: NodeId, told: &mut Told)
        requires active { status_of (state_at self.old) slot ≡ Some Active }
        requires tell { CanTell told.old.items (λ u. is_wait (status_of (state_at self.old) u)) }
        ensures state { state_at self.new ≡ shed (state_at self.old) slot node }
        ensures tells { TellsOthers slot (state_at self.old) (state_at self.new) told.old.items told.new.items }
        ensures orders { ListsLose self.old.ledger.lists.items self.new.ledger.lists.items }
    {
        self.graph.law();
        let empty = LockList::new(self.ledger.alloc);
        let mut list = std::mem::replace(&mut self.ledger.lists[slot as usize], empty);
        list.mark_covered(&self.graph, node);
        self.ledger.release_marked(&self.graph, slot, node, &mut list, &mut self.granted, told);
        self.ledger.lists[slot as usize] = list;
    }
}
