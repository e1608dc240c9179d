//! Locks on new nodes and on nodes that are removed.

ghost use Rattle.gl_slots.specs.Limit.{most_slots};
ghost use Rattle.std.specs.Prelude.{◌≡◌, ◌≢◌, ◌+◌, ◌<◌, ◌==◌, ℕ, [], IfErr, IfOk, Some, if◌then◌else◌, length, true};
ghost use Rattle.std.specs.List.{count_by};
ghost use Rattle.gl_modes.specs.declared.node.NodeId.{NodeId as Node};
ghost use Rattle.gl_graph.specs.Graph.{parents_of};
ghost use Rattle.gl_model.specs.declared.txn.Status.TheVariants.{Active};
ghost use Rattle.gl_modes.specs.Nodes.{same_node};
ghost use Rattle.gl_modes.specs.declared.mode.Mode.TheVariants.{NL};
ghost use Rattle.gl_modes.specs.declared.refusal.Refusal.{Refusal as ARefusal};
ghost use Rattle.gl_graph.specs.View.{graph_of};
ghost use Rattle.gl_header.specs.Header.{holds, is_among_waiters};
ghost use Rattle.gl_model.specs.Calls.{departed, goes_with};
ghost use Rattle.gl_table.specs.inside.Slots.{CanEnd, ListsKeepPlaces, ListsLose, WaitsEnd, as_left, books_of, counted_by};
ghost use Rattle.gl_model.specs.Tellings.{IsBySlot, notices_in};
ghost use Rattle.gl_table.specs.inside.Ledger.{Agrees, AreExact, AreSound, KeepsLocks, state_in};
ghost use Rattle.gl_table.specs.inside.Steps.{AreAgreed, CanEvict, CanTellWaiters, IsBranchLeftTo, IsLeftAloneTo, IsFresh, IsLeftTo, IsPrepared};
ghost use Rattle.gl_table.specs.inside.Steps.{MayAct, TellsGone};
ghost use Rattle.gl_model.specs.State.{members, status_of, with_grant};
ghost use Rattle.gl_model.specs.declared.answers.Notice.TheVariants as notice;

use crate::ledger::Ledger;
use crate::ledger::ask::make_room;
use crate::ledger::leave::{end_wait, strike};
use crate::txn_entries::TxnEntries;
use gl_graph::Graph;
use gl_header::Prepared;
use gl_lock_lists::LockList;
use gl_model::{Notice, Told};
use gl_modes::{Mode, NodeId, Refusal};
use gl_slots::Slot;

/// Ends the waits for a node that is removed: the waiters are active, their lists lack the node,
/// and they are told.
fn free(
    txn_entries: &mut TxnEntries,
    lists: &mut Vec<LockList>,
    told: &mut Told,
    node: NodeId,
    waiters: &[(Slot, Mode)],
)
    requires can { CanEnd (books_of txn_entries.old lists.old.items told.old.items) waiters.now }
    requires childless { (u : ℕ) → is_among_waiters u waiters.now ≡ true → counted_by lists.old.items u node ≡ 0 }
    ensures { WaitsEnd (books_of txn_entries.old lists.old.items told.old.items) node (λ u. is_among_waiters u waiters.now) as_left (λ u. notice.Gone)
        (books_of txn_entries.new lists.new.items told.new.items) }
{
    for waiter in waiters {
        let (slot, _) = *waiter;
        end_wait(txn_entries, lists, told, slot, node, Notice::Gone);
    }
}

impl Ledger {
    /// Removes all locks on a node that an active slot holds and nobody else, and of which nobody
    /// holds a child. Its waiters are active again, and told that it is gone.
    pub(crate) fn vacate(&mut self, graph: &Graph, slot: Slot, node: NodeId, told: &mut Told)
        requires act { MayAct graph.now self.old slot }
        requires left { IsLeftTo (state_in graph.now self.old) slot node }
        requires holds { holds (members (state_in graph.now self.old) node) slot ≡ true }
        requires tell { CanTellWaiters (state_in graph.now self.old) node told.old.items }
        ensures exact { AreExact graph.now self.new }
        ensures state { state_in graph.now self.new ≡ departed (state_in graph.now self.old) (λ q. same_node q node) (graph_of graph.now) }
        ensures tells { TellsGone (state_in graph.now self.old) node told.old.items told.new.items }
        ensures orders { ListsLose self.old.lists.items self.new.lists.items }
    {
        graph.law();
        self.evict(graph, slot, node, told);
    }

    /// As `vacate`, whatever else the lists count, if they count no child of the node.
    pub(crate) fn evict(&mut self, graph: &Graph, slot: Slot, node: NodeId, told: &mut Told)
        requires agreed { AreAgreed graph.now self.old }
        requires active { status_of (state_in graph.now self.old) slot ≡ Some Active }
        requires left { IsLeftAloneTo (state_in graph.now self.old) slot node }
        requires counts { CanEvict self.old.lists.items slot node (parents_of (graph_of graph.now) node) }
        requires tell { CanTellWaiters (state_in graph.now self.old) node told.old.items }
        ensures sound { AreSound self.new }
        ensures state { state_in graph.now self.new ≡ departed (state_in graph.now self.old) (λ q. same_node q node) (graph_of graph.now) }
        ensures agree { (u : ℕ) → Agrees (state_in graph.now self.new) self.new.lists.items u }
        ensures counts { (u : ℕ) (q : Node) → counted_by self.new.lists.items u q
            + (if u == slot then count_by (same_node q) (parents_of (graph_of graph.now) node) else 0) ≡ counted_by self.old.lists.items u q }
        ensures tells { TellsGone (state_in graph.now self.old) node told.old.items told.new.items }
        ensures orders { ListsLose self.old.lists.items self.new.lists.items }
    {
        strike(&mut self.lists, slot, node, graph.parents(node));
        let taken = self.headers.take(node);
        let waiters = match &taken {
            Some(header) => header.queue(),
            None => &[],
        };
        free(&mut self.txn_entries, &mut self.lists, told, node, waiters);
    }

    /// Removes the lock on a node that an active slot may hold, and nobody else. Nobody waits for
    /// the node or holds a child of it, so nobody is told.
    fn clear(&mut self, graph: &Graph, slot: Slot, node: NodeId, told: &mut Told)
        requires act { MayAct graph.now self.old slot }
        requires left { IsLeftTo (state_in graph.now self.old) slot node }
        requires unawaited { (state_in graph.now self.old).queue node ≡ [] }
        requires by_slot { IsBySlot told.old.items }
        ensures exact { AreExact graph.now self.new }
        ensures state { state_in graph.now self.new ≡ departed (state_in graph.now self.old) (λ q. same_node q node) (graph_of graph.now) }
        ensures by_slot { IsBySlot told.new.items }
        ensures same { (u : ℕ) → notices_in told.new.items u ≡ notices_in told.old.items u }
        ensures orders { ListsLose self.old.lists.items self.new.lists.items }
    {
        if self.lists[slot as usize].holds(node) {
            self.vacate(graph, slot, node, told);
        }
    }

    /// Removes all locks on a node that is not in use, and on its children, the intervals of an
    /// index. An active slot holds the node, nobody else holds any of them, and nobody waits for a
    /// child. The node's waiters are active again, and told that it is gone.
    pub(crate) fn vacate_branch(&mut self, graph: &Graph, slot: Slot, node: NodeId, told: &mut Told)
        requires act { MayAct graph.now self.old slot }
        requires branch { IsBranchLeftTo (state_in graph.now self.old) slot node }
        requires tell { CanTellWaiters (state_in graph.now self.old) node told.old.items }
        ensures exact { AreExact graph.now self.new }
        ensures state { state_in graph.now self.new ≡ departed (state_in graph.now self.old) (goes_with (graph_of graph.now) node) (graph_of graph.now) }
        ensures tells { TellsGone (state_in graph.now self.old) node told.old.items told.new.items }
        ensures orders { ListsLose self.old.lists.items self.new.lists.items }
    {
        graph.law();
        for interval in graph.intervals(node) {
            self.clear(graph, slot, *interval, told);
        }
        self.vacate(graph, slot, node, told);
    }

    /// Makes room for a node with this key that a slot will hold, and for the counts of its
    /// parents. Answers the node's header, with the slot's grant of this mode in it. The only
    /// refusal is `NoMemory`; no lock changes.
    pub(crate) fn prepare(
        &mut self,
        slot: Slot,
        key: usize,
        mode: Mode,
    ) -> Result<Prepared, Refusal>
        requires slot { slot < length self.old.lists.items }
        requires below { slot < most_slots }
        requires lock { mode ≢ NL }
        ensures ready { IfOk result (λ prepared. IsPrepared self.new slot key mode prepared) }
        ensures kept { KeepsLocks self.old self.new }
        ensures no_memory { IfErr result (λ refusal. refusal ≡ ARefusal.NoMemory) }
    {
        let Ok(()) = make_room(&mut self.lists, slot) else {
            return Err(Refusal::NoMemory);
        };
        self.headers.prepare(key, slot, mode)
    }

    /// Gives an active slot this mode on a node that nobody holds or waits for, by the prepared
    /// header. Allocates no memory: the room is there.
    pub(crate) fn place(
        &mut self,
        graph: &Graph,
        slot: Slot,
        node: NodeId,
        mode: Mode,
        prepared: Prepared,
    )
        requires act { MayAct graph.now self.old slot }
        requires fresh { IsFresh (state_in graph.now self.old) node }
        requires lock { mode ≢ NL }
        requires ready { IsPrepared self.old slot node.key mode prepared }
        ensures exact { AreExact graph.now self.new }
        ensures state { state_in graph.now self.new ≡ with_grant (state_in graph.now self.old) slot node mode }
        ensures orders { ListsKeepPlaces self.old.lists.items self.new.lists.items }
    {
        graph.law();
        self.headers.law();
        self.headers.put(node, prepared);
        let list = &mut self.lists[slot as usize];
        list.enter(node, mode);
        list.count_up(graph.parents(node));
    }
}
