//! Nodes are removed from the list of a slot: one by one, all of them, or those that are covered.

ghost use Rattle.std.specs.Prelude.{◌<◌, ◌==◌, ◌≡◌, Some, false, length};
ghost use Rattle.gl_model.specs.Lawful.{IsOrderly};
ghost use Rattle.gl_model.specs.State.{is_wait, status_of};
ghost use Rattle.gl_model.specs.declared.txn.Status.TheVariants.{Active};
ghost use Rattle.gl_table.specs.inside.Ledger.{AreExact, state_in};
ghost use Rattle.gl_table.specs.inside.Steps.{AreExactFor, CanEndAt, HasLeftAll, IsReleased};
ghost use Rattle.indexmap.specs.IndexMap.{keys};
ghost use Rattle.gl_table.specs.Orders.{OnlyLoses};
ghost use Rattle.gl_table.specs.inside.Slots.{CanStrike, CanTell, IsShedding, ListsLose, Strikes, TellsOthers, WaitsEnd, as_left, books_of};
ghost use Rattle.gl_table.specs.inside.Slots.{counted_by, room_by};

use crate::ledger::Ledger;
use crate::told::tell;
use crate::txn_entries::TxnEntries;
use gl_graph::Graph;
use gl_header::GrantList;
use gl_lock_lists::LockList;
use gl_model::{Notice, Status, Told, TxnId};
use gl_modes::NodeId;
use gl_slots::Slot;

/// Removes a node, of which no child is held, from the list of a slot; each parent has one held
/// child less.
pub(crate) fn strike(lists: &mut Vec<LockList>, slot: Slot, node: NodeId, parents: &[NodeId])
    requires can { CanStrike lists.old.items slot node parents.now }
    ensures { Strikes lists.old.items lists.new.items slot node parents.now }
{
    let list = &mut lists[slot as usize];
    list.leave(node);
    list.count_down(parents);
}

/// Ends the wait of a slot on a node that it does not hold: it is active, its list lacks the node,
/// and it is told why.
pub(crate) fn end_wait(
    txn_entries: &mut TxnEntries,
    lists: &mut Vec<LockList>,
    told: &mut Told,
    slot: Slot,
    node: NodeId,
    why: Notice,
)
    requires can { CanEndAt (books_of txn_entries.old lists.old.items told.old.items) slot }
    requires room { 0 < counted_by lists.old.items slot node → 0 < room_by lists.old.items slot }
    ensures { WaitsEnd (books_of txn_entries.old lists.old.items told.old.items) node (λ u. u == slot) as_left (λ u. why)
        (books_of txn_entries.new lists.new.items told.new.items) }
{
    let age = txn_entries.set_status(slot, Status::Active);
    lists[slot as usize].leave(node);
    tell(told, TxnId { slot, age }, why);
}

impl Ledger {
    /// Releases one node after the other, from the end of the slot's list to its beginning. The
    /// list itself is left as it is, for a caller that clears it. The list `granted` is filled
    /// anew.
    pub(crate) fn leave_all(
        &mut self,
        graph: &Graph,
        slot: Slot,
        granted: &mut GrantList,
        told: &mut Told,
    )
        requires exact { AreExact graph.now self.old }
        requires orderly { IsOrderly (state_in graph.now self.old) }
        requires has_entry { slot < length self.old.txn_entries.items }
        requires quiet { is_wait (status_of (state_in graph.now self.old) slot) ≡ false }
        requires tell { CanTell told.old.items (λ u. is_wait (status_of (state_in graph.now self.old) u)) }
        ensures others { AreExactFor graph.now self.new (λ u. (u == slot) ≡ false) }
        ensures left { HasLeftAll (state_in graph.now self.old) (state_in graph.now self.new) slot }
        ensures tells { TellsOthers slot (state_in graph.now self.old) (state_in graph.now self.new) told.old.items told.new.items }
        ensures orders { ListsLose self.old.lists.items self.new.lists.items }
    {
        graph.law();
        let mut at = self.rows(slot);
        while at > 0 {
            at -= 1;
            if let Some(node) = self.node_at(slot, at) {
                self.drop_and_wake(graph, slot, node, granted, told);
            }
        }
    }

    /// Releases what is marked in the list of a slot, from its end to its beginning. The list
    /// `granted` is filled anew.
    pub(crate) fn release_marked(
        &mut self,
        graph: &Graph,
        slot: Slot,
        node: NodeId,
        list: &mut LockList,
        granted: &mut GrantList,
        told: &mut Told,
    )
        requires others { AreExactFor graph.now self.old (λ u. (u == slot) ≡ false) }
        requires active { status_of (state_in graph.now self.old) slot ≡ Some Active }
        requires marked { IsShedding (state_in graph.now self.old) (state_in graph.now self.old) slot node list.old }
        requires tell { CanTell told.old.items (λ u. is_wait (status_of (state_in graph.now self.old) u)) }
        ensures others { AreExactFor graph.now self.new (λ u. (u == slot) ≡ false) }
        ensures released { IsReleased (state_in graph.now self.old) (state_in graph.now self.new) slot node list.new }
        ensures tells { TellsOthers slot (state_in graph.now self.old) (state_in graph.now self.new) told.old.items told.new.items }
        ensures orders { ListsLose self.old.lists.items self.new.lists.items }
        ensures order { OnlyLoses (keys list.old.entries) (keys list.new.entries) }
    {
        graph.law();
        let mut at = list.len();
        while at > 0 {
            at -= 1;
            if let Some(child) = list.take_marked(graph, at) {
                self.drop_and_wake(graph, slot, child, granted, told);
            }
        }
    }
}
