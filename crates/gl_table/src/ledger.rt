//! The ledger of locks: the headers of all nodes, and by slot the transactions with their lists.

ghost use Rattle.gl_slots.specs.Limit.{most_slots};
ghost use Rattle.std.specs.Prelude.{◌≡◌, ◌<◌, ◌≤◌, ℕ, IfOk, None, Some, false, length, slice_get, true, if◌then◌else◌};
ghost use Rattle.std.specs.Option.{option_map, option_map_or};
ghost use Rattle.indexmap.specs.IndexMap.{keys};
ghost use Rattle.gl_modes.specs.declared.mode.Mode.TheVariants.{NL};
ghost use Rattle.gl_modes.specs.declared.node.NodeId.{NodeId as Node};
ghost use Rattle.std.specs.Prelude.{◌&&◌};
ghost use Rattle.std.specs.List.{find, list_any};
ghost use Rattle.gl_graph.specs.Graph.{is_child, is_live, nodes, parents_of};
ghost use Rattle.gl_graph.specs.View.{graph_of};
ghost use Rattle.gl_header.specs.Header.{holds, is_among_waiters};
ghost use Rattle.gl_header.specs.Headers.{held_of};
ghost use Rattle.gl_model.specs.Calls.{unlocked};
ghost use Rattle.gl_model.specs.State.{is_write, is_waiting_at, pumped, without_wait, members, with_grant};
ghost use Rattle.gl_table.specs.inside.Ledger.{state_in, AreNew, hinders_by};
ghost use Rattle.gl_table.specs.inside.Steps.{AreExactFor, CanTellWaiters, HasWoken};
ghost use Rattle.gl_model.specs.Lawful.{effect_on};
ghost use Rattle.gl_table.specs.inside.TxnEntries.{txn_in, txns_of};
ghost use Rattle.gl_table.specs.Table.{row_of};
ghost use Rattle.gl_table.specs.inside.Slots.{CanEnd, CanHold, Wakes, books_of, by_list, childless_in, counted_by, held_by, nodes_by};

use crate::effective::effective;
use crate::txn_entries::TxnEntries;
use crate::txn_entry::TxnEntry;
use gl_graph::Graph;
use gl_header::{GrantList, Headers};
use gl_lock_lists::{Entry, LockList};
use gl_model::{Effect, LockRow, Status, Told};
use gl_modes::{Mode, NodeId};
use gl_slots::Slot;
use std::alloc::{AllocError, Global};

mod ask;
mod checks;
pub(crate) mod cuts;
mod deadlock;
pub(crate) mod leave;
pub(crate) mod moves;
mod place;
mod wake;

/// Who holds what and who waits for what, kept twice, so that no query is a search: by node in the
/// headers, and by transaction in the lists. The graph is passed in if it is needed.
#[derive(Drop)]
pub(crate) struct Ledger {
    pub(crate) alloc: Global,
    pub(crate) headers: Headers,
    pub(crate) txn_entries: TxnEntries,
    pub(crate) lists: Vec<LockList>,
}

impl Ledger {
    /// No locks, and so many free slots.
    pub(crate) fn new(alloc: Global, most: usize) -> Result<Self, AllocError>
        requires { most ≤ most_slots }
        ensures { IfOk result (λ ledger. AreNew ledger most) }
    {
        let headers = Headers::new(alloc)?;
        let txn_entries = TxnEntries::new(alloc, most)?;
        let mut lists = Vec::new(alloc);
        for _ in 0..most {
            lists.push(LockList::new(alloc))?;
        }
        Ok(Ledger {
            alloc,
            headers,
            txn_entries,
            lists,
        })
    }

    /// The transaction in a slot.
    #[inline]
    pub(crate) fn txn_entry(&self, slot: Slot) -> Option<TxnEntry>
        ensures { txn_in (Some result) ≡ txns_of self.now.txn_entries.items slot }
    {
        self.txn_entries.get(slot)
    }

    /// The mode in which a slot holds a node, `NL` for none. It is read at the node, not searched
    /// for in the slot's list: most requested nodes are new, and would be searched for in vain.
    #[inline(always)]
    pub(crate) fn mode(&self, slot: Slot, node: NodeId) -> Mode
        ensures { result ≡ held_of self.now.headers.entries slot node }
    {
        self.headers.mode_of(slot, node)
    }

    /// How many children of a node a slot holds, if it holds the node.
    pub(crate) fn children(&self, slot: Slot, node: NodeId) -> Option<u32>
        ensures { result ≡ (if holds (λ t. held_by self.now.lists.items t node) slot then Some (counted_by self.now.lists.items slot node) else None) }
    {
        let entry = self.lists.get(slot as usize)?.entry(node)?;
        if matches!(entry.mode, Mode::NL) {
            None
        } else {
            Some(entry.children)
        }
    }

    /// How many nodes a slot holds or waits for.
    pub(crate) fn rows(&self, slot: Slot) -> usize
        ensures { result ≡ by_list (λ l. length (keys l.entries)) 0 self.now.lists.items slot }
    {
        match self.lists.get(slot as usize) {
            Some(list) => list.len(),
            None => 0,
        }
    }

    /// The entry at a place in the list of a slot.
    pub(crate) fn row(&self, slot: Slot, place: usize) -> Option<LockRow>
        ensures { result ≡ by_list (λ l. option_map row_of (slice_get l.entries.entries place)) None self.now.lists.items slot }
    {
        let (node, Entry { mode, children }) = self.lists.get(slot as usize)?.at(place)?;
        Some(LockRow {
            node,
            mode,
            children,
        })
    }

    /// The node at a place in the list of a slot.
    #[inline]
    fn node_at(&self, slot: Slot, place: usize) -> Option<NodeId>
        ensures { result ≡ by_list (λ l. option_map (λ x. x.0) (slice_get l.entries.entries place)) None self.now.lists.items slot }
    {
        let (node, _) = self.lists.get(slot as usize)?.at(place)?;
        Some(node)
    }

    /// The node at a place in the list of a slot, if no child of it is held.
    pub(crate) fn childless_at(&self, slot: Slot, place: usize) -> Option<NodeId>
        ensures { result ≡ by_list (λ l. childless_in (slice_get l.entries.entries place)) None self.now.lists.items slot }
    {
        let (node, entry) = self.lists.get(slot as usize)?.at(place)?;
        if entry.children == 0 {
            Some(node)
        } else {
            None
        }
    }

    /// Whether a slot holds some node in `S` or greater, or a node for which somebody waits. Scans its
    /// list.
    pub(crate) fn hinders(&self, slot: Slot) -> bool
        ensures { result ≡ list_any (hinders_by self.now.headers.entries slot) (nodes_by self.now.lists.items slot) }
    {
        for place in 0..self.rows(slot) {
            if self.hinders_at(slot, place) {
                return true;
            }
        }
        false
    }

    /// The same of the node at a place of the list.
    fn hinders_at(&self, slot: Slot, place: usize) -> bool
        ensures { result ≡ option_map_or (hinders_by self.now.headers.entries slot) (slice_get (nodes_by self.now.lists.items slot) place) false }
    {
        match self.node_at(slot, place) {
            Some(node) => self.headers.hinders(slot, node),
            None => false,
        }
    }

    /// The held child of a node that was born first.
    pub(crate) fn first_child(&self, graph: &Graph, slot: Slot, node: NodeId) -> Option<NodeId>
        requires live { (c : Node) → holds (λ t. held_by self.now.lists.items t c) slot ≡ true → is_live (graph_of graph.now) c ≡ true }
        ensures { result ≡ find (λ c. is_child (graph_of graph.now) node c && holds (λ t. held_by self.now.lists.items t c) slot) (nodes (graph_of graph.now)) }
    {
        match self.lists.get(slot as usize) {
            Some(list) => list.first_child(graph, node),
            None => None,
        }
    }

    /// Whether a slot holds some child of a node in `IX`, `SIX` or `X`.
    pub(crate) fn writes_below(&self, graph: &Graph, slot: Slot, node: NodeId) -> bool
        requires live { (c : Node) → holds (λ t. held_by self.now.lists.items t c) slot ≡ true → is_live (graph_of graph.now) c ≡ true }
        ensures { result ≡ list_any (λ c. is_child (graph_of graph.now) node c && is_write (held_by self.now.lists.items slot c)) (nodes (graph_of graph.now)) }
    {
        match self.lists.get(slot as usize) {
            Some(list) => list.writes_below(graph, node),
            None => false,
        }
    }

    /// The effective mode of a slot on a node.
    pub(crate) fn effective(
        &self,
        graph: &Graph,
        slot: Slot,
        node: NodeId,
    ) -> Result<Effect, AllocError>
        requires slot { slot < length self.now.lists.items }
        requires live { is_live (graph_of graph.now) node ≡ true }
        ensures { IfOk result (λ effect. effect ≡ effect_on (graph_of graph.now) (held_by self.now.lists.items slot) node) }
    {
        effective(self.alloc, graph, &self.lists[slot as usize], node)
    }

    /// Removes the grant of a slot from the header of a node, whose waiters are then granted from
    /// the front. The slot's own list is left as it is. The list `granted` is filled anew; a caller
    /// that drops several grants has one for all.
    #[inline(always)]
    pub(crate) fn drop_and_wake(
        &mut self,
        graph: &Graph,
        slot: Slot,
        node: NodeId,
        granted: &mut GrantList,
        told: &mut Told,
    )
        requires waiters { AreExactFor graph.now self.old (λ u. is_among_waiters u ((state_in graph.now self.old).queue node) ≡ true) }
        requires holds { holds (members (state_in graph.now self.old) node) slot ≡ true }
        requires no_wait { is_among_waiters slot ((state_in graph.now self.old).queue node) ≡ false }
        requires tell { CanTellWaiters (state_in graph.now self.old) node told.old.items }
        ensures state { state_in graph.now self.new ≡ unlocked (state_in graph.now self.old) slot node }
        ensures woken { HasWoken graph.now node (with_grant (state_in graph.now self.old) slot node NL) self.old self.new told.old.items told.new.items }
    {
        graph.law();
        self.headers.drop_grant(slot, node, granted);
        self.wake_granted(graph, node, granted.as_slice(), told);
    }

    /// Removes the wait of a slot from the header of its node, whose waiters are then granted from
    /// the front. The slot's own list is left as it is; its status is written. The list `granted`
    /// is filled anew.
    pub(crate) fn leave_queue(
        &mut self,
        graph: &Graph,
        slot: Slot,
        node: NodeId,
        status: Status,
        granted: &mut GrantList,
        told: &mut Told,
    )
        requires waiters { AreExactFor graph.now self.old (λ u. is_among_waiters u ((state_in graph.now self.old).queue node) ≡ true) }
        requires waits { is_waiting_at (state_in graph.now self.old) slot node ≡ true }
        requires tell { CanTellWaiters (without_wait (state_in graph.now self.old) slot status) node told.old.items }
        ensures state { state_in graph.now self.new ≡ pumped (without_wait (state_in graph.now self.old) slot status)
            (is_waiting_at (state_in graph.now self.old) slot) }
        ensures woken { HasWoken graph.now node (without_wait (state_in graph.now self.old) slot status) self.old self.new told.old.items told.new.items }
    {
        graph.law();
        self.headers.drop_wait(slot, node, granted);
        self.wake_granted(graph, node, granted.as_slice(), told);
        self.txn_entries.set_status(slot, status);
    }

    /// The waiters that were granted on a node hold it, are active, and are told.
    #[inline]
    fn wake_granted(
        &mut self,
        graph: &Graph,
        node: NodeId,
        granted: &[(Slot, Mode)],
        told: &mut Told,
    )
        requires can { CanEnd (books_of self.old.txn_entries self.old.lists.items told.old.items) granted.now }
        requires hold { (u : ℕ) → is_among_waiters u granted.now ≡ true → CanHold self.old.lists.items u node (parents_of (graph_of graph.now) node) }
        ensures headers { self.new.headers.entries ≡ self.old.headers.entries }
        ensures wakes { Wakes (books_of self.old.txn_entries self.old.lists.items told.old.items) node (parents_of (graph_of graph.now) node) granted.now
            (books_of self.new.txn_entries self.new.lists.items told.new.items) }
    {
        if granted.is_empty() {
            return; // Mostly so: the parents are looked up only if a waiter is granted.
        }
        wake::wake(
            &mut self.txn_entries,
            &mut self.lists,
            told,
            node,
            graph.parents(node),
            granted,
        );
    }
}
