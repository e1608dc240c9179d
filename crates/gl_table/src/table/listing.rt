//! Listings: who holds what and who waits for what. None allocates memory, and answers without a
//! command between them are of one moment.

ghost use Rattle.std.specs.Prelude.{◌≡◌, ◌||◌, ℕ, IfOk, None, Some, get_or, if◌then◌else◌, length, map, position, slice_get};
ghost use Rattle.gl_graph.specs.Refusals.{first_refusal};
ghost use Rattle.gl_header.specs.Header.{holds, is_waiter};
ghost use Rattle.gl_slots.specs.Slots.{has_slot};
ghost use Rattle.gl_model.specs.Calls.{RefusesOnly, group_tests, living_tests};
ghost use Rattle.gl_table.specs.Table.{AreRowsOf, ahead_in, living_in, rows_of, state_of};
ghost use Rattle.gl_model.specs.State.{is_wait, lives, members, status_of, waits_for};

use super::Table;
use gl_model::{LockRow, Status, TxnId};
use gl_modes::{Mode, NodeId, Refusal};
use gl_slots::{Slot, Slots};

impl Table {
    /// How many transactions may live at once; their slots are below this.
    pub fn most(&self) -> usize
        ensures { result ≡ (state_of self.now).most }
    {
        self.locks.ledger.txn_entries.as_slice().len()
    }

    /// The slots of the transactions that wait.
    pub fn waiting_slots(&self) -> Slots
        ensures { (u : ℕ) → has_slot result u ≡ is_wait (status_of (state_of self.now) u) }
    {
        self.locks.ledger.txn_entries.waiting()
    }

    /// The transaction in a slot, and its status; `None` for a free slot.
    pub fn living(&self, slot: Slot) -> Option<(TxnId, Status)>
        ensures { result ≡ living_in (state_of self.now) slot }
    {
        let txn_entry = self.locks.ledger.txn_entry(slot)?;
        Some((
            TxnId {
                slot,
                age: txn_entry.age,
            },
            txn_entry.status,
        ))
    }

    /// How many nodes a transaction holds or waits for; `None` if it does not live.
    pub fn lock_count(&self, t: TxnId) -> Option<usize>
        ensures { result ≡ (if lives (state_of self.now) t then Some (length (rows_of self.now t.slot)) else None) }
    {
        match self.status(t) {
            Some(_) => Some(self.locks.ledger.rows(t.slot)),
            None => None,
        }
    }

    /// The entry at a place in the list of nodes that a transaction holds or waits for; `None` if
    /// it does not live or has no more. A command may change the places.
    pub fn lock_at(&self, t: TxnId, place: usize) -> Option<LockRow>
        ensures row { result ≡ (if lives (state_of self.now) t then slice_get (rows_of self.now t.slot) place else None) }
        ensures rows { AreRowsOf (state_of self.now) t.slot (rows_of self.now t.slot) }
    {
        self.law();
        match self.status(t) {
            Some(_) => self.locks.ledger.row(t.slot, place),
            None => None,
        }
    }

    /// The slots of the transactions that hold a node. Refused with `NoSuchNode`.
    pub fn holders(&self, n: NodeId) -> Result<Slots, Refusal>
        ensures holders { IfOk result (λ slots. (u : ℕ) → has_slot slots u ≡ holds (members (state_of self.now) n) u) }
        ensures refused { RefusesOnly (first_refusal (group_tests (state_of self.now) n)) result }
    {
        self.check_node(n)?;
        Ok(self.locks.ledger.headers.holders(n))
    }

    /// The mode in which the transaction of a slot holds a node, `NL` for none.
    pub fn mode_at(&self, slot: Slot, n: NodeId) -> Mode
        ensures { result ≡ (state_of self.now).held slot n }
    {
        self.locks.mode(slot, n)
    }

    /// The waiters of a node, by slot, with the wanted modes, in the queue's order. Refused with
    /// `NoSuchNode`.
    pub fn queue(&self, n: NodeId) -> Result<&[(Slot, Mode)], Refusal>
        ensures queue { IfOk result (λ waiters. waiters.now ≡ (state_of self.now).queue n) }
        ensures refused { RefusesOnly (first_refusal (group_tests (state_of self.now) n)) result }
    {
        self.check_node(n)?;
        Ok(self.locks.ledger.headers.queue(n))
    }

    /// How many waiters are ahead of a transaction in the queue of the node that it waits for;
    /// `None` if it does not live or does not wait.
    pub fn ahead(&self, t: TxnId) -> Option<usize>
        ensures { result ≡ (if lives (state_of self.now) t
            then ahead_in (state_of self.now) t.slot (status_of (state_of self.now) t.slot) else None) }
    {
        self.law();
        match self.status(t) {
            Some(Status::Waiting { node, .. }) => {
                place_in(self.locks.ledger.headers.queue(node), t.slot)
            }
            _ => None,
        }
    }

    /// The slots of those for whom a transaction waits: those that hold the node in a mode
    /// incompatible with the wanted one, and those ahead in its queue; none if it does not wait.
    /// Refused with `NoSuchTxn`.
    pub fn waits_for(&self, t: TxnId) -> Result<Slots, Refusal>
        ensures waits { IfOk result (λ slots. (u : ℕ) → has_slot slots u ≡ waits_for (state_of self.now) t.slot u) }
        ensures refused { RefusesOnly (first_refusal (living_tests (state_of self.now) t)) result }
    {
        match self.status(t) {
            Some(Status::Waiting { node, wanted }) => Ok(
                self.locks.ledger.headers.waits_for(t.slot, node, wanted),
            ),
            Some(_) => Ok(Slots::empty()),
            None => Err(Refusal::NoSuchTxn),
        }
    }
}

/// The place of a slot in a queue.
fn place_in(queue: &[(Slot, Mode)], slot: Slot) -> Option<usize>
    ensures { result ≡ position (is_waiter slot) queue.now }
{
    queue.iter().position(|waiter| waiter.0 == slot)
}
