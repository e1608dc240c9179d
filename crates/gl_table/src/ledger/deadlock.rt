//! Victims of deadlocks, and the record of each deadlock.

ghost use Rattle.gl_slots.specs.Limit.{most_slots};
ghost use Rattle.std.specs.Prelude.{ℕ, ◌&&◌, ◌<◌, ◌↔◌, ◌≡◌, IfNone, IfSome, IsTrue, Some, length, true};
ghost use Rattle.gl_graph.specs.Graph.{Graph as AGraph};
ghost use Rattle.gl_model.specs.Deadlocks.{IsDeadlock, name_at};
ghost use Rattle.gl_model.specs.Lawful.{IsOrderly};
ghost use Rattle.gl_model.specs.State.{IsVictim, is_wait, status_in, status_of, waits_for};
ghost use Rattle.gl_model.specs.declared.txn.Status.TheVariants.{Waiting};
ghost use Rattle.gl_slots.specs.Slots.{has_slot};
ghost use Rattle.gl_table.specs.inside.Ledger.{AreSound, state_on};
ghost use Rattle.gl_table.specs.inside.TxnEntries.{txns_of};
ghost use Rattle.gl_waits.specs.Waits.{IsOnCycleOf, IsOnNoCycle};

use crate::boards::Waits;
use crate::ledger::Ledger;
use crate::txn_entry::TxnEntry;
use gl_model::{Deadlock, Status, Stuck, TxnId};
use gl_slots::{Slot, Slots};
use gl_waits::{Victims, on_cycle_in, victim_for};

impl Ledger {
    /// The next victim for a slot; `None` if the slot is on no cycle.
    pub(crate) fn victim(&self, victims: Victims, slot: Slot) -> Option<Slot>
        requires sound { AreSound self.now }
        requires has_entry { slot < length self.now.txn_entries.items }
        ensures none { IfNone result ((g : AGraph) → IsOrderly (state_on g self.now) → IsOnNoCycle (waits_for (state_on g self.now)) slot) }
        ensures some { IfSome result (λ v. (g : AGraph) → IsOrderly (state_on g self.now) → IsVictim victims (state_on g self.now) slot v) }
        ensures waits { IfSome result (λ v. (g : AGraph) → IsOrderly (state_on g self.now) → is_wait (status_of (state_on g self.now) v) ≡ true) }
    {
        let waits = Waits {
            headers: &self.headers,
            txn_entries: self.txn_entries.as_slice(),
        };
        let victim = victim_for(&waits, &waits, slot as usize, victims)?;
        Some(victim as Slot)
    }

    /// Records, in place of the last deadlock, that of a slot, before this victim is condemned.
    pub(crate) fn keep_deadlock(&self, slot: Slot, victim: Slot, deadlock: &mut Deadlock)
        requires sound { AreSound self.now }
        requires has_entry { slot < length self.now.txn_entries.items }
        ensures { (g : AGraph) → IsDeadlock (state_on g self.now) slot victim deadlock.new }
    {
        let cycle = self.cycle(slot);
        deadlock.victim = self.name(victim);
        deadlock.cycle.clear();
        let mut left = cycle;
        while let Some(waiter) = left.take_lowest() {
            let stuck = self.stuck(waiter, cycle);
            deadlock.cycle.push(stuck);
        }
    }

    /// The slots on a cycle with a slot.
    fn cycle(&self, slot: Slot) -> Slots
        requires below { slot < most_slots }
        ensures { (g : AGraph) (u : ℕ) → IsTrue (has_slot result u) ↔ IsOnCycleOf (waits_for (state_on g self.now)) slot u }
    {
        let waits = Waits {
            headers: &self.headers,
            txn_entries: self.txn_entries.as_slice(),
        };
        on_cycle_in(&waits, slot as usize)
    }

    /// A slot that waits: its name, its node and wanted mode, and for whom of these slots it waits.
    fn stuck(&self, slot: Slot, cycle: Slots) -> Stuck
        requires below { slot < most_slots }
        requires waits { is_wait (status_in (txns_of self.now.txn_entries.items slot)) ≡ true }
        ensures name { (g : AGraph) → result.txn ≡ name_at (state_on g self.now) slot }
        ensures waits { (g : AGraph) → status_of (state_on g self.now) slot ≡ Some (Waiting result.node result.wanted) }
        ensures waits_for { (g : AGraph) (u : ℕ) → has_slot result.waits_for u ≡ (waits_for (state_on g self.now) slot u && has_slot cycle u) }
    {
        let Some(
            TxnEntry {
                age,
                status: Status::Waiting { node, wanted },
                ..
            },
        ) = self.txn_entry(slot)
        else {
            unreachable!()
        };
        Stuck {
            txn: TxnId { slot, age },
            node,
            wanted,
            waits_for: self
                .headers
                .waits_for(slot, node, wanted)
                .intersection(cycle),
        }
    }

    /// The name of the transaction in a slot, with age 0 for a free one.
    fn name(&self, slot: Slot) -> TxnId
        ensures { (g : AGraph) → result ≡ name_at (state_on g self.now) slot }
    {
        let age = match self.txn_entry(slot) {
            Some(txn_entry) => txn_entry.age,
            None => 0,
        };
        TxnId { slot, age }
    }
}
