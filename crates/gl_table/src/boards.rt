//! The waits-for snapshot of a moment.

ghost use Rattle.gl_slots.specs.Limit.{most_slots};
ghost use Rattle.std.specs.Prelude.{◌≡◌, ◌≤◌, ◌==◌, ◌&&◌, ◌||◌, ◌⊎◌, ◌↔◌, ℕ, IsTrue, ◌<◌, IfSome, MatchOption, Some, false, get_or, length, not};
ghost use Rattle.gl_modes.specs.Modes.{are_compatible};
ghost use Rattle.gl_header.specs.Header.{is_ahead};
ghost use Rattle.gl_header.specs.State.{members_of};
ghost use Rattle.gl_slots.specs.Slots.{HasNoBit, bits_of, has_slot, no_bits};
ghost use Rattle.gl_table.specs.Table.{board_of, shown};
ghost use Rattle.gl_model.specs.declared.txn.Status.TheVariants.{Waiting};
ghost use Rattle.gl_header.specs.Headers.{held_of, queue_of};
ghost use Rattle.gl_table.specs.inside.TxnEntries.{txns_of};
ghost use Rattle.gl_model.specs.State.{age_in, is_wait, status_in, waits_for};

use crate::txn_entries::TxnEntries;
use crate::txn_entry::TxnEntry;
use gl_header::{Header, Headers};
use gl_model::Status;
use gl_modes::{Mode, NodeId};
use gl_slots::{Bits, SLOTS, Slot, Slots};
use gl_waits::{Ages, Board, WaitsFor};

/// The snapshot of this moment. Only the ages of living transactions and the rows of waiters are
/// written.
pub(crate) fn board(headers: &Headers, txn_entries: &TxnEntries, epoch: u64) -> Board
    requires few { length txn_entries.now.items ≤ most_slots }
    ensures { result ≡ board_of (shown headers.now.entries txn_entries.now.items epoch) }
{
    let mut board = Board::idle(epoch);
    write_ages(txn_entries, &mut board.ages);
    write_rows(headers, txn_entries, &mut board.rows);
    board
}

/// Writes the age of each living transaction; all are 0 before.
fn write_ages(txn_entries: &TxnEntries, ages: &mut [u64; SLOTS])
    requires none { (u : ℕ) → get_or ages.old u 0 ≡ 0 }
    ensures len { length ages.new ≡ length ages.old }
    ensures ages { (u : ℕ) → get_or ages.new u 0 ≡ age_in (txns_of txn_entries.now.items u) }
{
    let mut left = txn_entries.living();
    while let Some(slot) = left.take_lowest() {
        if let Some(TxnEntry { age, .. }) = txn_entries.get(slot) {
            ages[slot as usize] = age;
        }
    }
}

/// Writes the row of each waiter; all are empty before. Each queue with a waiter is read once,
/// however many it has.
fn write_rows(headers: &Headers, txn_entries: &TxnEntries, rows: &mut [Bits; SLOTS])
    requires none { (t : ℕ) → get_or rows.old t no_bits ≡ no_bits }
    ensures len { length rows.new ≡ length rows.old }
    ensures rows { (t : ℕ) → get_or rows.new t no_bits ≡ bits_of (waits_for (shown headers.now.entries txn_entries.now.items 0) t) }
{
    let mut left = txn_entries.waiting();
    while let Some(slot) = left.take_lowest() {
        if is_unwritten(rows, slot) {
            show_waiter(headers, txn_entries, slot, rows);
        }
    }
}

/// Whether the row of a slot is empty.
fn is_unwritten(rows: &[Bits; SLOTS], slot: Slot) -> bool
    requires { slot < most_slots }
    ensures { IsTrue result ↔ HasNoBit (get_or rows.now slot no_bits) }
{
    Slots::from_bits(rows[slot as usize]).is_empty()
}

/// Writes the row of a slot, and those of all that wait for the same node.
fn show_waiter(headers: &Headers, txn_entries: &TxnEntries, slot: Slot, rows: &mut [Bits; SLOTS])
    requires below { slot < most_slots }
    requires none { get_or rows.old slot no_bits ≡ no_bits }
    ensures len { length rows.new ≡ length rows.old }
    ensures own { get_or rows.new slot no_bits ≡ bits_of (waits_for (shown headers.now.entries txn_entries.now.items 0) slot) }
    ensures rows { (t : ℕ) → (get_or rows.new t no_bits ≡ get_or rows.old t no_bits)
        ⊎ (get_or rows.new t no_bits ≡ bits_of (waits_for (shown headers.now.entries txn_entries.now.items 0) t)) }
{
    let Some((node, wanted)) = wait_of(txn_entries, slot) else {
        return;
    };
    show_queue(headers, txn_entries.as_slice(), node, rows);
    // A waiter is in the queue, so its row is written by now.
    if is_unwritten(rows, slot) {
        rows[slot as usize] = row(headers, slot, node, wanted).bits();
    }
}

/// The node that a slot waits for, and the wanted mode; `None` if it does not wait.
fn wait_of(txn_entries: &TxnEntries, slot: Slot) -> Option<(NodeId, Mode)>
    ensures { MatchOption result (is_wait (status_in (txns_of txn_entries.now.items slot)) ≡ false)
        (λ wait. status_in (txns_of txn_entries.now.items slot) ≡ Some (Waiting wait.0 wait.1)) }
{
    match txn_entries.get(slot)?.status {
        Status::Waiting { node, wanted } => Some((node, wanted)),
        _ => None,
    }
}

/// Writes the rows of a node's waiters, in one pass over its queue: ahead of each are those passed
/// so far. A slot's first place counts.
fn show_queue(
    headers: &Headers,
    txn_entries: &[Option<TxnEntry>],
    node: NodeId,
    rows: &mut [Bits; SLOTS],
)
    ensures len { length rows.new ≡ length rows.old }
    ensures rows { (t : ℕ) → (get_or rows.new t no_bits ≡ get_or rows.old t no_bits)
        ⊎ (get_or rows.new t no_bits ≡ bits_of (waits_for (shown headers.now.entries txn_entries.now 0) t)) }
{
    let Some(header) = headers.shared(node) else {
        return;
    };
    header.law();
    let mut passed = Slots::empty();
    for &(slot, _) in header.queue() {
        if let Some(wanted) = wanted_on(txn_entries, slot, node) {
            if !passed.contains(slot) {
                rows[slot as usize] = row_behind(header, passed, slot, wanted).bits();
            }
        }
        passed.insert(slot);
    }
}

/// The mode in which a slot waits for a node.
fn wanted_on(txn_entries: &[Option<TxnEntry>], slot: Slot, node: NodeId) -> Option<Mode>
    ensures { IfSome result (λ m. status_in (txns_of txn_entries.now slot) ≡ Some (Waiting node m)) }
{
    let TxnEntry { status, .. } = (*txn_entries.get(slot as usize)?)?;
    match status {
        Status::Waiting { node: at, wanted } if at == node => Some(wanted),
        _ => None,
    }
}

/// Who waits for whom at this moment, and the age and the `since` of each, read slot by slot.
#[derive(Clone, Copy)]
pub(crate) struct Waits<'a> {
    pub(crate) headers: &'a Headers,
    pub(crate) txn_entries: &'a [Option<TxnEntry>],
}

impl WaitsFor for Waits<'_> {
    ghost use Rattle.gl_table.specs.Table.{shown};
    ghost use Rattle.gl_model.specs.State.{waits_for};

    ghost edge = { λ it. waits_for (shown it.headers.now.entries it.txn_entries.now 0) };

    fn row(&self, slot: usize) -> Slots {
        match self.txn_entries.get(slot) {
            Some(
                Some(
                    TxnEntry {
                        status: Status::Waiting { node, wanted },
                        ..
                    },
                ),
            ) => row(self.headers, slot as Slot, *node, *wanted),
            _ => Slots::empty(),
        }
    }
}

impl Ages for Waits<'_> {
    ghost use Rattle.gl_model.specs.State.{age_in, since_in};
    ghost use Rattle.gl_table.specs.inside.TxnEntries.{txns_of};

    ghost age_of = { λ it slot. age_in (txns_of it.txn_entries.now slot) };

    ghost since_of = { λ it slot. since_in (txns_of it.txn_entries.now slot) };

    fn age(&self, slot: usize) -> u64 {
        match self.txn_entries.get(slot) {
            Some(Some(txn_entry)) => txn_entry.age,
            _ => 0,
        }
    }

    fn since(&self, slot: usize) -> u64 {
        match self.txn_entries.get(slot) {
            Some(Some(txn_entry)) => txn_entry.since,
            _ => 0,
        }
    }
}

/// The slots for which a slot waits, if it waits on this node for this mode.
fn row(headers: &Headers, slot: Slot, node: NodeId, wanted: Mode) -> Slots
    requires below { slot < most_slots }
    ensures { (u : ℕ) → has_slot result u ≡ (not (slot == u)
        && (not (are_compatible wanted (held_of headers.now.entries u node)) || is_ahead (queue_of headers.now.entries node) slot u)) }
{
    headers.waits_for(slot, node, wanted)
}

/// The slots for which a slot waits, with these ahead of it.
fn row_behind(header: &Header, ahead: Slots, slot: Slot, wanted: Mode) -> Slots
    ensures { (u : ℕ) → has_slot result u ≡ (not (slot == u) && (not (are_compatible wanted (members_of header.now u)) || has_slot ahead u)) }
{
    header.opposed(wanted).union(ahead).without(slot)
}
