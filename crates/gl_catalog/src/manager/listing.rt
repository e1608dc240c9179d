//! Listings: who holds what and who waits for what. None allocates memory, and answers without a
//! command between them are of one moment.

ghost use Rattle.std.specs.Prelude.{◌≡◌, ℕ, IfOk, None, Some, if◌then◌else◌, length, slice_get};
ghost use Rattle.gl_graph.specs.Refusals.{first_refusal};
ghost use Rattle.gl_header.specs.Header.{holds};
ghost use Rattle.gl_slots.specs.Slots.{has_slot};
ghost use Rattle.gl_model.specs.Calls.{RefusesOnly, group_tests, living_tests};
ghost use Rattle.gl_table.specs.Table.{AreRowsOf, ahead_in, living_in, rows_of};
ghost use Rattle.gl_model.specs.State.{lives, members, status_of, waits_for};
ghost use Rattle.gl_catalog.specs.Manager.{state_of};

use super::Manager;
use gl_modes::{Mode, NodeId, Refusal};
use gl_slots::{Slot, Slots};
use gl_table::{LockRow, Status, TxnId};

impl Manager {
    /// How many transactions may live at once; their slots are below this.
    pub fn most(&self) -> usize
        ensures { result ≡ (state_of self.now).most }
    {
        self.table.most()
    }

    /// The transaction in a slot, and its status; `None` for a free slot.
    pub fn living(&self, slot: Slot) -> Option<(TxnId, Status)>
        ensures { result ≡ living_in (state_of self.now) slot }
    {
        self.table.living(slot)
    }

    /// Whether a transaction is active, waits or is condemned; `None` if it does not live.
    pub fn status(&self, t: TxnId) -> Option<Status>
        ensures { result ≡ (if lives (state_of self.now) t then status_of (state_of self.now) t.slot else None) }
    {
        self.table.status(t)
    }

    /// How many nodes a transaction holds or waits for; `None` if it does not live.
    pub fn lock_count(&self, t: TxnId) -> Option<usize>
        ensures { result ≡ (if lives (state_of self.now) t then Some (length (rows_of self.now.table t.slot)) else None) }
    {
        self.table.lock_count(t)
    }

    /// The entry at a place in the list of nodes that a transaction holds or waits for; `None` if
    /// it does not live or has no more. A command may change the places.
    pub fn lock_at(&self, t: TxnId, place: usize) -> Option<LockRow>
        ensures row { result ≡ (if lives (state_of self.now) t then slice_get (rows_of self.now.table t.slot) place else None) }
        ensures rows { AreRowsOf (state_of self.now) t.slot (rows_of self.now.table t.slot) }
    {
        self.table.lock_at(t, place)
    }

    /// The slots of the transactions that hold a node. Refused with `NoSuchNode`.
    pub fn holders(&self, n: NodeId) -> Result<Slots, Refusal>
        ensures holders { IfOk result (λ slots. (u : ℕ) → has_slot slots u ≡ holds (members (state_of self.now) n) u) }
        ensures refused { RefusesOnly (first_refusal (group_tests (state_of self.now) n)) result }
    {
        self.table.holders(n)
    }

    /// The mode in which the transaction of a slot holds a node, `NL` for none.
    pub fn mode_at(&self, slot: Slot, n: NodeId) -> Mode
        ensures { result ≡ (state_of self.now).held slot n }
    {
        self.table.mode_at(slot, n)
    }

    /// The waiters of a node, by slot, with the wanted modes, in the queue's order. Refused with
    /// `NoSuchNode`.
    pub fn queue(&self, n: NodeId) -> Result<&[(Slot, Mode)], Refusal>
        ensures queue { IfOk result (λ waiters. waiters.now ≡ (state_of self.now).queue n) }
        ensures refused { RefusesOnly (first_refusal (group_tests (state_of self.now) n)) result }
    {
        self.table.queue(n)
    }

    /// How many waiters are ahead of a transaction in the queue of the node that it waits for;
    /// `None` if it does not live or does not wait.
    pub fn ahead(&self, t: TxnId) -> Option<usize>
        ensures { result ≡ (if lives (state_of self.now) t
            then ahead_in (state_of self.now) t.slot (status_of (state_of self.now) t.slot) else None) }
    {
        self.table.ahead(t)
    }

    /// The slots of those for whom a transaction waits: those that hold the node in a mode
    /// incompatible with the wanted one, and those ahead in its queue; none if it does not wait.
    /// Refused with `NoSuchTxn`.
    pub fn waits_for(&self, t: TxnId) -> Result<Slots, Refusal>
        ensures waits { IfOk result (λ slots. (u : ℕ) → has_slot slots u ≡ waits_for (state_of self.now) t.slot u) }
        ensures refused { RefusesOnly (first_refusal (living_tests (state_of self.now) t)) result }
    {
        self.table.waits_for(t)
    }
}
