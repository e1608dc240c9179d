//! Queries of the locks.

ghost use Rattle.std.specs.Prelude.{if◌then◌else◌, ◌&&◌, ◌<◌, ◌≡◌, IfOk, None, Some, true};
ghost use Rattle.std.specs.List.{find, list_any};
ghost use Rattle.gl_graph.specs.Graph.{is_child, is_live, nodes};
ghost use Rattle.gl_header.specs.Header.{holds};
ghost use Rattle.gl_model.specs.Calls.{held_children, hinders_at, locked_as};
ghost use Rattle.gl_model.specs.Lawful.{effective};
ghost use Rattle.gl_model.specs.State.{is_write, members, status_of};
ghost use Rattle.gl_table.specs.inside.Locks.{state_at};

use crate::locks::Locks;
use crate::txn_entry::TxnEntry;
use gl_model::{Effect, Locked, Status};
use gl_modes::{Mode, NodeId};
use gl_slots::Slot;
use std::alloc::AllocError;

impl Locks {
    /// The mode in which a slot holds a node, `NL` for none.
    #[inline]
    pub(crate) fn mode(&self, slot: Slot, node: NodeId) -> Mode
        ensures { result ≡ (state_at self.now).held slot node }
    {
        self.ledger.mode(slot, node)
    }

    /// How many children of a node a slot holds, if it holds the node.
    #[inline]
    pub(crate) fn children(&self, slot: Slot, node: NodeId) -> Option<u32>
        ensures { result ≡ (if holds (members (state_at self.now) node) slot then Some (held_children (state_at self.now) slot node) else None) }
    {
        self.ledger.children(slot, node)
    }

    /// The held child of a node that was born first.
    #[inline]
    pub(crate) fn first_child(&self, slot: Slot, node: NodeId) -> Option<NodeId>
        ensures { result ≡ find (λ c. is_child (state_at self.now).graph node c && holds (members (state_at self.now) c) slot)
            (nodes (state_at self.now).graph) }
    {
        self.ledger.first_child(&self.graph, slot, node)
    }

    /// Whether a slot holds some child of a node in `IX`, `SIX` or `X`.
    #[inline]
    pub(crate) fn writes_below(&self, slot: Slot, node: NodeId) -> bool
        ensures { result ≡ list_any (λ c. is_child (state_at self.now).graph node c && is_write ((state_at self.now).held slot c))
            (nodes (state_at self.now).graph) }
    {
        self.ledger.writes_below(&self.graph, slot, node)
    }

    /// Whether a slot holds some node in `S` or greater, or a node for which somebody waits.
    pub(crate) fn hinders(&self, slot: Slot) -> bool
        ensures { result ≡ list_any (hinders_at (state_at self.now) slot) (nodes (state_at self.now).graph) }
    {
        self.graph.law();
        self.ledger.hinders(slot)
    }

    /// The effective mode of a slot on a node.
    #[inline]
    pub(crate) fn effective(&self, slot: Slot, node: NodeId) -> Result<Effect, AllocError>
        requires slot { slot < (state_at self.now).most }
        requires live { is_live (state_at self.now).graph node ≡ true }
        ensures { IfOk result (λ effect. effect ≡ effective (state_at self.now) slot node) }
    {
        self.ledger.effective(&self.graph, slot, node)
    }

    /// The outcome of a slot's request for a node.
    pub(crate) fn outcome(&self, slot: Slot, node: NodeId) -> Locked
        ensures { result ≡ locked_as ((state_at self.now).held slot node) (status_of (state_at self.now) slot) }
    {
        match self.ledger.txn_entry(slot) {
            Some(
                TxnEntry {
                    status: Status::Waiting { .. },
                    ..
                },
            ) => Locked::Waiting,
            Some(
                TxnEntry {
                    status: Status::Condemned,
                    ..
                },
            ) => Locked::Victim,
            _ => Locked::Granted(self.mode(slot, node)),
        }
    }
}
