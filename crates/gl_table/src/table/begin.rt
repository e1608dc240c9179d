//! Transactions begin.

ghost use Rattle.std.specs.Prelude.{◌≡◌, ◌≢◌, ◌<◌, ◌≤◌, ◌+◌, false, IfOk, IsOk, None, OnErr, Some, OnOk};
ghost use Rattle.gl_graph.specs.Refusals.{Refuses, first_refusal, max_count};
ghost use Rattle.gl_model.specs.Calls.{RefusesOnly, begin_tests, begun, begun_again, begun_at, free_slot, join_tests, joined, joining_age, renew_tests};
ghost use Rattle.gl_model.specs.State.{is_wait, status_of};
ghost use Rattle.gl_table.specs.Table.{KeepsOrders, state_of};

use super::Table;
use crate::txn_entry::TxnEntry;
use gl_model::{Status, TxnId};
use gl_modes::Refusal;
use gl_slots::Slot;

impl Table {
    /// Begins a transaction, in the lowest free slot, with the next age: the number after the last
    /// that was given. Refused, in this order, with `WornOut` if that was `u64::MAX`, and
    /// `TooManyTxns` if no slot is free. Allocates no memory.
    pub fn begin(&mut self) -> Result<TxnId, Refusal>
        ensures begun { IfOk result (λ t. (free_slot (state_of self.old) ≡ Some t.slot)
            × (t.age ≡ (state_of self.old).begins + 1)
            × (state_of self.new ≡ begun (state_of self.old) t.slot)) }
        ensures deadlock { self.new.deadlock ≡ self.old.deadlock }
        ensures orders { OnOk result (KeepsOrders self.old self.new) }
        ensures goes { first_refusal (begin_tests (state_of self.old)) ≡ None → IsOk result }
        ensures refuses { Refuses (first_refusal (begin_tests (state_of self.old))) result }
        ensures err { OnErr result (self.new ≡ self.old) }
    {
        self.begin_again(u64::MAX)
    }

    /// Begins a transaction as `begin` does, for work that began earlier: `since` is the age of the
    /// first transaction for it. A number above its own age counts as that. The next victim of a
    /// deadlock is the one with the greatest such number.
    #[inline]
    pub fn begin_again(&mut self, since: u64) -> Result<TxnId, Refusal>
        ensures begun { IfOk result (λ t. (free_slot (state_of self.old) ≡ Some t.slot)
            × (t.age ≡ (state_of self.old).begins + 1)
            × (state_of self.new ≡ begun_again (state_of self.old) t.slot since)) }
        ensures deadlock { self.new.deadlock ≡ self.old.deadlock }
        ensures orders { OnOk result (KeepsOrders self.old self.new) }
        ensures goes { first_refusal (begin_tests (state_of self.old)) ≡ None → IsOk result }
        ensures refuses { Refuses (first_refusal (begin_tests (state_of self.old))) result }
        ensures err { OnErr result (self.new ≡ self.old) }
    {
        if self.begins == u64::MAX {
            return Err(Refusal::WornOut);
        }
        let Some(slot) = self.locks.ledger.txn_entries.first_free() else {
            return Err(Refusal::TooManyTxns);
        };
        Ok(self.start(slot, since))
    }

    /// Ends a transaction that holds intentions alone, on nodes for which nobody waits, and begins
    /// anew in its slot with all its locks; `since` is as in `begin_again`. Refused, in this order,
    /// with `NoSuchTxn`, `TxnWaiting`, `TxnCondemned`, `NeedRelease` if it holds more than that, and
    /// `WornOut` if no age is left. Allocates no memory. Linear in the locks.
    pub fn renew(&mut self, t: TxnId, since: u64) -> Result<TxnId, Refusal>
        ensures renewed { IfOk result (λ u. (u.slot ≡ t.slot)
            × (u.age ≡ (state_of self.old).begins + 1)
            × (state_of self.new ≡ begun_again (state_of self.old) t.slot since)) }
        ensures deadlock { self.new.deadlock ≡ self.old.deadlock }
        ensures orders { OnOk result (KeepsOrders self.old self.new) }
        ensures refuses { RefusesOnly (first_refusal (renew_tests (state_of self.old) t)) result }
        ensures err { OnErr result (self.new ≡ self.old) }
    {
        self.check_active(t)?;
        if self.locks.hinders(t.slot) {
            return Err(Refusal::NeedRelease);
        }
        if self.begins == u64::MAX {
            return Err(Refusal::WornOut);
        }
        Ok(self.start(t.slot, since))
    }

    /// Begins a transaction in the slot of this number, for work that began elsewhere: its `since`
    /// is this number, also if it is above the next age. Its age is the greater of the two. Refused,
    /// in this order, with `WornOut` if no age is left, and `TooManyTxns` if the slot is taken, or is
    /// none of the table's. Allocates no memory.
    pub fn join(&mut self, slot: usize, since: u64) -> Result<TxnId, Refusal>
        ensures joined { IfOk result (λ t. (t.slot ≡ slot)
            × (t.age ≡ joining_age (state_of self.old) since)
            × (state_of self.new ≡ joined (state_of self.old) slot since)) }
        ensures deadlock { self.new.deadlock ≡ self.old.deadlock }
        ensures orders { OnOk result (KeepsOrders self.old self.new) }
        ensures refuses { RefusesOnly (first_refusal (join_tests (state_of self.old) slot since)) result }
        ensures err { OnErr result (self.new ≡ self.old) }
    {
        if self.begins == u64::MAX {
            return Err(Refusal::WornOut);
        }
        let Some(slot) = self.locks.ledger.txn_entries.free_slot(slot) else {
            return Err(Refusal::TooManyTxns);
        };
        let age = (self.begins + 1).max(since);
        Ok(self.start_at(slot, age, since))
    }

    /// A transaction begins with the next age in a slot in which nobody waits: a free one, or its
    /// own. A number above its age counts as that.
    #[inline]
    pub(super) fn start(&mut self, slot: Slot, since: u64) -> TxnId
        requires slot { slot < (state_of self.old).most }
        requires quiet { is_wait (status_of (state_of self.old) slot) ≡ false }
        requires left { (state_of self.old).begins ≢ max_count }
        ensures slot { result.slot ≡ slot }
        ensures age { result.age ≡ (state_of self.old).begins + 1 }
        ensures state { state_of self.new ≡ begun_again (state_of self.old) slot since }
        ensures deadlock { self.new.deadlock ≡ self.old.deadlock }
        ensures orders { KeepsOrders self.old self.new }
        ensures lists { self.new.lists ≡ self.old.lists }
    {
        let age = self.begins + 1;
        self.start_at(slot, age, since.min(age))
    }

    /// A transaction begins with an age above all others in a slot in which nobody waits.
    #[inline]
    fn start_at(&mut self, slot: Slot, age: u64, since: u64) -> TxnId
        requires slot { slot < (state_of self.old).most }
        requires quiet { is_wait (status_of (state_of self.old) slot) ≡ false }
        requires later { (state_of self.old).begins < age }
        requires low { since ≤ age }
        ensures slot { result.slot ≡ slot }
        ensures age { result.age ≡ age }
        ensures state { state_of self.new ≡ begun_at (state_of self.old) slot age since }
        ensures deadlock { self.new.deadlock ≡ self.old.deadlock }
        ensures orders { KeepsOrders self.old self.new }
        ensures lists { self.new.lists ≡ self.old.lists }
    {
        self.begins = age;
        let status = Status::Active;
        self.locks
            .ledger
            .txn_entries
            .take(slot, TxnEntry { age, since, status });
        TxnId { slot, age }
    }
}
