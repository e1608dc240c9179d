//! A transaction rolls back to a mark.

ghost use Rattle.std.specs.Prelude.{◌≡◌, ◌+◌, List, Some, drop, length, take, true};
ghost use Rattle.std.specs.List.{list_any};
ghost use Rattle.gl_modes.specs.Nodes.{same_node};
ghost use Rattle.gl_modes.specs.declared.node.NodeId.{NodeId as Node};
ghost use Rattle.gl_model.specs.Calls.{GoesBack, Unlocks, holds_child};
ghost use Rattle.gl_model.specs.State.{is_wait, status_of};
ghost use Rattle.gl_model.specs.declared.txn.Status.TheVariants.{Active};
ghost use Rattle.gl_table.specs.inside.Locks.{state_at};
ghost use Rattle.gl_table.specs.inside.Slots.{CanTell, ListsLose, TellsOthers, nodes_by};

use crate::locks::Locks;
use gl_model::Told;
use gl_slots::Slot;

impl Locks {
    /// Releases what an active slot holds from a place in its list on, except nodes of which a
    /// child stays; answers how many were released.
    ///
    /// Nodes are mostly listed after their parents, so one pass from the end is enough, and another
    /// if a node was listed before its parent. Nodes before the place keep theirs.
    pub(crate) fn release_since(&mut self, slot: Slot, mark: usize, told: &mut Told) -> usize
        requires active { status_of (state_at self.old) slot ≡ Some Active }
        requires tell { CanTell told.old.items (λ u. is_wait (status_of (state_at self.old) u)) }
        ensures back { (ns : List Node) × GoesBack (state_at self.old) slot mark (nodes_by self.old.ledger.lists.items slot) ns
            (nodes_by self.new.ledger.lists.items slot) (state_at self.new) × (result ≡ length ns) }
        ensures active { status_of (state_at self.new) slot ≡ Some Active }
        ensures tell { CanTell told.new.items (λ u. is_wait (status_of (state_at self.new) u)) }
        ensures tells { TellsOthers slot (state_at self.old) (state_at self.new) told.old.items told.new.items }
        ensures orders { ListsLose self.old.ledger.lists.items self.new.ledger.lists.items }
    {
        let rows = self.ledger.rows(slot);
        'pass: while self.ledger.rows(slot) > mark {
            if self.release_childless(slot, mark, told) == 0 {
                break;
            }
        }
        rows - self.ledger.rows(slot)
    }

    /// One pass from the end of a slot's list to a place in it: releases each node of which no
    /// child is held then. Answers how many.
    fn release_childless(&mut self, slot: Slot, mark: usize, told: &mut Told) -> usize
        requires active { status_of (state_at self.old) slot ≡ Some Active }
        requires tell { CanTell told.old.items (λ u. is_wait (status_of (state_at self.old) u)) }
        ensures active { status_of (state_at self.new) slot ≡ Some Active }
        ensures tell { CanTell told.new.items (λ u. is_wait (status_of (state_at self.new) u)) }
        ensures unlocks { (ns : List Node) × Unlocks (state_at self.old) slot ns (state_at self.new) × (result ≡ length ns) }
        ensures before { take mark (nodes_by self.new.ledger.lists.items slot) ≡ take mark (nodes_by self.old.ledger.lists.items slot) }
        ensures fewer { length (nodes_by self.new.ledger.lists.items slot) + result ≡ length (nodes_by self.old.ledger.lists.items slot) }
        ensures stays { result ≡ 0 → (n : Node) → list_any (same_node n) (drop mark (nodes_by self.new.ledger.lists.items slot)) ≡ true
            → holds_child (state_at self.new) slot n ≡ true }
        ensures tells { TellsOthers slot (state_at self.old) (state_at self.new) told.old.items told.new.items }
        ensures orders { ListsLose self.old.ledger.lists.items self.new.ledger.lists.items }
    {
        let mut released = 0;
        let mut at = self.ledger.rows(slot);
        while at > mark {
            at -= 1;
            if let Some(node) = self.ledger.childless_at(slot, at) {
                self.release(slot, node, told);
                released += 1;
            }
        }
        released
    }
}
