//! Intervals are split and merged: the counts of held children, the waits, and the lock on the new
//! interval.

ghost use Rattle.std.specs.Prelude.{◌≡◌, ◌+◌, ◌<◌, ◌^◌, ◌==◌, ℕ, IfErr, IfOk, OnOk, Some, false, if◌then◌else◌, length, slice_get, true};
ghost use Rattle.std.specs.List.{count_by};
ghost use Rattle.gl_slots.specs.Limit.{most_slots};
ghost use Rattle.gl_slots.specs.Slots.{has_slot};
ghost use Rattle.gl_header.specs.Header.{is_among_waiters};
ghost use Rattle.gl_header.specs.Headers.{queue_of};
ghost use Rattle.gl_modes.specs.declared.mode.Mode.TheVariants.{X};
ghost use Rattle.gl_model.specs.Splits.{split_by};
ghost use Rattle.gl_model.specs.State.{status_of};
ghost use Rattle.gl_model.specs.declared.txn.Status.TheVariants.{Active};
ghost use Rattle.gl_modes.specs.Nodes.{same_node};
ghost use Rattle.gl_modes.specs.declared.node.NodeId.{NodeId as Node};
ghost use Rattle.gl_modes.specs.declared.refusal.Refusal.{Refusal as ARefusal};
ghost use Rattle.gl_graph.specs.Graph.{parents_of};
ghost use Rattle.gl_graph.specs.View.{graph_of};
ghost use Rattle.gl_lock_lists.specs.Lists.{held_below};
ghost use Rattle.gl_lock_lists.specs.declared.list.LockList.{LockList as AList};
ghost use Rattle.gl_model.specs.Calls.{departed, held_children};
ghost use Rattle.gl_table.specs.inside.Cuts.{CanJoin, CanPart, CountOver, HaveRoomBeside};
ghost use Rattle.gl_table.specs.inside.Ledger.{Agrees, AreExact, AreSound, KeepsLocks, state_in};
ghost use Rattle.gl_table.specs.inside.Slots.{KeepsLists, ListsKeepPlaces, ListsLose, by_list, counted_by};
ghost use Rattle.gl_table.specs.inside.Steps.{AreAgreed, ArePartedFrom, AreShutOut, CanTellWaiters, IsFresh, IsLeftAloneTo, IsPrepared, MayAct};
ghost use Rattle.gl_table.specs.inside.Steps.{TellsGone, TellsMoved};

use crate::ledger::Ledger;
use gl_graph::Graph;
use gl_header::Prepared;
use gl_lock_lists::LockList;
use gl_model::Told;
use gl_modes::{Mode, NodeId, Refusal};
use gl_slots::{Slot, Slots};
use std::alloc::AllocError;

/// Makes room in each list that counts children of a node to count them for another node.
fn make_room_beside(lists: &mut Vec<LockList>, node: NodeId) -> Result<(), AllocError>
    ensures kept { KeepsLists lists.old.items lists.new.items }
    ensures ok { OnOk result (HaveRoomBeside lists.new.items node) }
{
    for slot in 0..lists.len() {
        lists[slot].make_room_beside(node)?;
    }
    Ok(())
}

/// In each list the held children of a node that now are children of another one are counted
/// there. The graph has already changed.
fn part_all(lists: &mut Vec<LockList>, graph: &Graph, from: NodeId, to: NodeId)
    requires can { (u : ℕ) (l : AList) → slice_get lists.old.items u ≡ Some l → CanPart (graph_of graph.now) from to l }
    ensures { CountOver lists.old.items from to (by_list (λ l. held_below (graph_of graph.now) l to) 0 lists.old.items) lists.new.items }
{
    for slot in 0..lists.len() {
        lists[slot].part(graph, from, to);
    }
}

/// In each list the held children of a node are counted for another one.
fn join_all(lists: &mut Vec<LockList>, from: NodeId, to: NodeId)
    requires can { (u : ℕ) (l : AList) → slice_get lists.old.items u ≡ Some l → CanJoin from to l }
    ensures { CountOver lists.old.items from to (λ u. counted_by lists.old.items u from) lists.new.items }
{
    for slot in 0..lists.len() {
        lists[slot].join_counts(from, to);
    }
}

impl Ledger {
    /// Makes room to count held children of an interval for another one, in each list that counts
    /// some. The only refusal is `NoMemory`; no lock changes.
    pub(crate) fn prepare_cut(&mut self, interval: NodeId) -> Result<(), Refusal>
        ensures ready { OnOk result (HaveRoomBeside self.new.lists.items interval) }
        ensures kept { KeepsLocks self.old self.new }
        ensures no_memory { IfErr result (λ refusal. refusal ≡ ARefusal.NoMemory) }
    {
        match make_room_beside(&mut self.lists, interval) {
            Ok(()) => Ok(()),
            Err(AllocError) => Err(Refusal::NoMemory),
        }
    }

    /// As `prepare` for a new interval that a slot will hold in X, and as `prepare_cut` for the one
    /// that is split. The only refusal is `NoMemory`; no lock changes.
    pub(crate) fn prepare_split(
        &mut self,
        slot: Slot,
        key: usize,
        interval: NodeId,
    ) -> Result<Prepared, Refusal>
        requires slot { slot < length self.old.lists.items }
        requires below { slot < most_slots }
        ensures ready { IfOk result (λ prepared. IsPrepared self.new slot key X prepared) }
        ensures beside { OnOk result (HaveRoomBeside self.new.lists.items interval) }
        ensures kept { KeepsLocks self.old self.new }
        ensures no_memory { IfErr result (λ refusal. refusal ≡ ARefusal.NoMemory) }
    {
        self.prepare_cut(interval)?;
        self.prepare(slot, key, Mode::X)
    }

    /// Removes all locks on an interval that an active slot holds and nobody else, and counts its
    /// held children for another interval, of which they become children: the graph changes
    /// afterwards. Its waiters are active again, and told that it is gone. Allocates no memory: the
    /// room is there.
    pub(crate) fn merge(
        &mut self,
        graph: &Graph,
        slot: Slot,
        from: NodeId,
        to: NodeId,
        told: &mut Told,
    )
        requires act { MayAct graph.now self.old slot }
        requires left { IsLeftAloneTo (state_in graph.now self.old) slot from }
        requires differ { same_node to from ≡ false }
        requires apart { count_by (same_node from) (parents_of (graph_of graph.now) from) ≡ 0 }
        requires few { (u : ℕ) → held_children (state_in graph.now self.old) u to + held_children (state_in graph.now self.old) u from < 2 ^ 32 }
        requires room { HaveRoomBeside self.old.lists.items from }
        requires tell { CanTellWaiters (state_in graph.now self.old) from told.old.items }
        ensures sound { AreSound self.new }
        ensures state { state_in graph.now self.new ≡ departed (state_in graph.now self.old) (λ q. same_node q from) (graph_of graph.now) }
        ensures agree { (u : ℕ) → Agrees (state_in graph.now self.new) self.new.lists.items u }
        ensures counts { (u : ℕ) (q : Node) → counted_by self.new.lists.items u q
            + (if u == slot then count_by (same_node q) (parents_of (graph_of graph.now) from) else 0)
            + (if same_node q from then held_children (state_in graph.now self.old) u from else 0)
            ≡ held_children (state_in graph.now self.old) u q
            + (if same_node q to then held_children (state_in graph.now self.old) u from else 0) }
        ensures tells { TellsGone (state_in graph.now self.old) from told.old.items told.new.items }
        ensures orders { ListsLose self.old.lists.items self.new.lists.items }
    {
        graph.law();
        join_all(&mut self.lists, from, to);
        self.evict(graph, slot, from, told);
    }

    /// The slots that wait on a node.
    fn waiters(&self, node: NodeId) -> Slots
        requires below { (u : ℕ) → is_among_waiters u (queue_of self.now.headers.entries node) ≡ true → u < most_slots }
        ensures { (u : ℕ) → has_slot result u ≡ is_among_waiters u (queue_of self.now.headers.entries node) }
    {
        let mut waiters = Slots::empty();
        for &(slot, _) in self.headers.queue(node) {
            waiters.insert(slot);
        }
        waiters
    }

    /// An interval was split in the graph by an active slot, which holds X on it: its held children
    /// that now are children of the new interval are counted there, the slot holds the new one in
    /// X, by the prepared header, and who waited for the old one is active, and told that it moved.
    /// Allocates no memory: the room is there.
    pub(crate) fn split(
        &mut self,
        graph: &Graph,
        slot: Slot,
        from: NodeId,
        to: NodeId,
        prepared: Prepared,
        told: &mut Told,
    )
        requires agreed { AreAgreed graph.now self.old }
        requires active { status_of (state_in graph.now self.old) slot ≡ Some Active }
        requires parted { ArePartedFrom (state_in graph.now self.old) self.old.lists.items from to }
        requires room { HaveRoomBeside self.old.lists.items from }
        requires fresh { IsFresh (state_in graph.now self.old) to }
        requires shut_out { AreShutOut (state_in graph.now self.old) from }
        requires ready { IsPrepared self.old slot to.key X prepared }
        requires tell { CanTellWaiters (state_in graph.now self.old) from told.old.items }
        ensures exact { AreExact graph.now self.new }
        ensures state { state_in graph.now self.new ≡ split_by (state_in graph.now self.old) slot from (graph_of graph.now) to }
        ensures tells { TellsMoved (state_in graph.now self.old) from told.old.items told.new.items }
        ensures orders { ListsKeepPlaces self.old.lists.items self.new.lists.items }
    {
        part_all(&mut self.lists, graph, from, to);
        self.place(graph, slot, to, Mode::X, prepared);
        let mut waiters = self.waiters(from);
        while let Some(waiter) = waiters.take_lowest() {
            self.turn_one_away(waiter, from, told);
        }
    }
}
