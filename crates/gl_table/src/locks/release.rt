//! A node is released, and a wait ended.

ghost use Rattle.std.specs.Prelude.{◌≡◌, Some, true};
ghost use Rattle.gl_header.specs.Header.{holds, is_among_waiters};
ghost use Rattle.gl_model.specs.Calls.{held_children, unlocked};
ghost use Rattle.gl_model.specs.State.{front_at, is_wait, is_waiting_at, members, pumped, status_of, with_grant, without_wait};
ghost use Rattle.gl_model.specs.Tellings.{WakesTold};
ghost use Rattle.gl_model.specs.declared.txn.Status.TheVariants.{Active, Waiting};
ghost use Rattle.gl_modes.specs.declared.mode.Mode.{Mode as AMode};
ghost use Rattle.gl_modes.specs.declared.mode.Mode.TheVariants.{NL};
ghost use Rattle.gl_modes.specs.declared.node.NodeId.{NodeId as Node};
ghost use Rattle.gl_table.specs.inside.Locks.{state_at};
ghost use Rattle.gl_table.specs.inside.Slots.{CanTell, LeavesPlace, ListsLose, nodes_by};

use crate::ledger::leave::strike;
use crate::locks::Locks;
use gl_model::{Status, Told};
use gl_modes::NodeId;
use gl_slots::Slot;

impl Locks {
    /// Releases a node of which the slot holds no child. The node's waiters are granted from the
    /// front.
    pub(crate) fn release(&mut self, slot: Slot, node: NodeId, told: &mut Told)
        requires active { status_of (state_at self.old) slot ≡ Some Active }
        requires holds { holds (members (state_at self.old) node) slot ≡ true }
        requires childless { held_children (state_at self.old) slot node ≡ 0 }
        requires tell { CanTell told.old.items (λ u. is_among_waiters u ((state_at self.old).queue node)) }
        ensures state { state_at self.new ≡ unlocked (state_at self.old) slot node }
        ensures place { LeavesPlace node (nodes_by self.old.ledger.lists.items slot) (nodes_by self.new.ledger.lists.items slot) }
        ensures tells { WakesTold (state_at self.old).txns node (front_at (with_grant (state_at self.old) slot node NL) node) told.old.items told.new.items }
        ensures orders { ListsLose self.old.ledger.lists.items self.new.ledger.lists.items }
    {
        self.graph.law();
        self.ledger
            .drop_and_wake(&self.graph, slot, node, &mut self.granted, told);
        strike(&mut self.ledger.lists, slot, node, self.graph.parents(node));
    }

    /// Ends the wait of a slot, which then has this status. The node's waiters are granted from the
    /// front.
    pub(crate) fn withdraw(&mut self, slot: Slot, node: NodeId, status: Status, told: &mut Told)
        requires waits { is_waiting_at (state_at self.old) slot node ≡ true }
        requires quiet { (q : Node) (m : AMode) → Some status ≡ Some (Waiting q m) → ⊥ }
        requires tell { CanTell told.old.items (λ u. is_wait (status_of (state_at self.old) u)) }
        ensures state { state_at self.new ≡ pumped (without_wait (state_at self.old) slot status) (is_waiting_at (state_at self.old) slot) }
        ensures tells { WakesTold (state_at self.old).txns node (front_at (without_wait (state_at self.old) slot status) node) told.old.items told.new.items }
        ensures orders { ListsLose self.old.ledger.lists.items self.new.ledger.lists.items }
    {
        self.graph.law();
        self.ledger
            .leave_queue(&self.graph, slot, node, status, &mut self.granted, told);
        let list = &mut self.ledger.lists[slot as usize];
        if !list.holds(node) {
            list.leave(node);
        }
    }
}
