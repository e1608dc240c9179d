//! The transaction entries, by slot.

ghost use Rattle.gl_slots.specs.Limit.{most_slots};
ghost use Rattle.std.specs.Prelude.{◌≡◌, ◌<◌, ◌≤◌, ◌==◌, ℕ, IfOk, None, Some, if◌then◌else◌, length, position, replicate, slice_set};
ghost use Rattle.gl_slots.specs.Slots.{has_slot};
ghost use Rattle.gl_model.specs.State.{age_in, is_wait, restatus};
ghost use Rattle.gl_table.specs.inside.TxnEntries.{is_free, is_free_at, lives_at, txn_in, txns_of, waits_at};

use crate::txn_entry::TxnEntry;
use gl_model::Status;
use gl_slots::{Slot, Slots};
use std::alloc::{AllocError, Global};
use std::marker::Model;

/// The transaction in each slot, and three sets: of the free slots, of those with a transaction,
/// and of those that wait. So none is searched for, however many slots there are.
#[derive(Drop)]
pub(crate) struct TxnEntries {
    list: Vec<Option<TxnEntry>>,
    free: Slots,
    living: Slots,
    waiting: Slots,
}

impl Model for TxnEntries {
    ghost use Rattle.gl_table.specs.inside.TxnEntries.{TxnEntryList};

    ghost Value = { TxnEntryList };

    ghost use Rattle.gl_table.specs.inside.TxnEntrySets.{AreTxnEntries, txn_entries_of};

    ghost view = { txn_entries_of };

    ghost invariant = { AreTxnEntries };
}

impl TxnEntries {
    /// So many free slots.
    pub(crate) fn new(alloc: Global, most: usize) -> Result<Self, AllocError>
        requires { most ≤ most_slots }
        ensures { IfOk result (λ txn_entries. txn_entries.items ≡ replicate most None) }
    {
        let mut list = Vec::new(alloc);
        let mut free = Slots::empty();
        for slot in 0..most {
            list.push(None)?;
            free.insert(slot as Slot);
        }
        Ok(TxnEntries {
            list,
            free,
            living: Slots::empty(),
            waiting: Slots::empty(),
        })
    }

    /// The transaction in a slot.
    #[inline]
    pub(crate) fn get(&self, slot: Slot) -> Option<TxnEntry>
        ensures { txn_in (Some result) ≡ txns_of self.now.items slot }
    {
        match self.list.get(slot as usize) {
            Some(txn_entry) => *txn_entry,
            None => None,
        }
    }

    /// All entries, from slot 0 on.
    pub(crate) fn as_slice(&self) -> &[Option<TxnEntry>]
        ensures { result.now ≡ self.now.items }
    {
        self.list.as_slice()
    }

    /// The lowest free slot.
    pub(crate) fn first_free(&self) -> Option<Slot>
        ensures { result ≡ position is_free self.now.items }
    {
        self.free.lowest()
    }

    /// The slot of this number, if there is one and it is free.
    pub(crate) fn free_slot(&self, number: usize) -> Option<Slot>
        ensures { result ≡ (if is_free_at self.now.items number then Some number else None) }
    {
        match self.list.get(number) {
            Some(None) => Some(number as Slot),
            _ => None,
        }
    }

    /// The slots with a transaction.
    pub(crate) fn living(&self) -> Slots
        ensures { (u : ℕ) → has_slot result u ≡ lives_at self.now.items u }
    {
        self.living
    }

    /// The slots of transactions that wait.
    pub(crate) fn waiting(&self) -> Slots
        ensures { (u : ℕ) → has_slot result u ≡ waits_at self.now.items u }
    {
        self.waiting
    }

    /// Enters a transaction.
    pub(crate) fn take(&mut self, slot: Slot, txn_entry: TxnEntry)
        requires { slot < length self.old.items }
        ensures { self.new.items ≡ slice_set self.old.items slot (Some txn_entry) }
    {
        self.list[slot as usize] = Some(txn_entry);
        self.free.remove(slot);
        self.living.insert(slot);
        note(&mut self.waiting, slot, txn_entry.status);
    }

    /// Frees a slot.
    pub(crate) fn leave(&mut self, slot: Slot)
        requires { slot < length self.old.items }
        ensures { self.new.items ≡ slice_set self.old.items slot None }
    {
        self.list[slot as usize] = None;
        self.free.insert(slot);
        self.living.remove(slot);
        self.waiting.remove(slot);
    }

    /// Sets the status of the transaction in a slot. Answers its age, 0 for a free slot.
    pub(crate) fn set_status(&mut self, slot: Slot, status: Status) -> u64
        requires { slot < length self.old.items }
        ensures age { result ≡ age_in (txns_of self.old.items slot) }
        ensures len { length self.new.items ≡ length self.old.items }
        ensures txns { (u : ℕ) → txns_of self.new.items u ≡
            (if u == slot then restatus status (txns_of self.old.items slot) else txns_of self.old.items u) }
    {
        let txn_entry = &mut self.list[slot as usize];
        match txn_entry {
            Some(txn_entry) => {
                txn_entry.status = status;
                note(&mut self.waiting, slot, status);
                txn_entry.age
            }
            None => 0,
        }
    }
}

/// Puts a slot into the set of those that wait, or removes it, by the status of its transaction.
fn note(waiting: &mut Slots, slot: Slot, status: Status)
    requires { slot < most_slots }
    ensures { (u : ℕ) → has_slot waiting.new u ≡ (if u == slot then is_wait (Some status) else has_slot waiting.old u) }
{
    match status {
        Status::Waiting { .. } => waiting.insert(slot),
        _ => waiting.remove(slot),
    }
}
