//! The output for a listing: a line, and one for each row.

ghost use Rattle.std.specs.Prelude.{◌≡◌, Some, flat_map, length, true};
ghost use Rattle.gl_script.specs.Grammar as listing;
ghost use Rattle.gl_script.specs.Views.{listing_of, node_of};
ghost use Rattle.gl_slots.specs.Slots.{slots_of};
ghost use Rattle.gl_table.specs.Table.{living_in, rows_of};
ghost use Rattle.gl_model.specs.State.{lives, status_of};
ghost use Rattle.gl_catalog.specs.Replies.{wait_of};
ghost use Rattle.gl_interpreter.specs.Held.{Hands};
ghost use Rattle.gl_interpreter.specs.Rows.{
  blocker_row,
  deadlock_rows,
  holder_row,
  kept_node,
  lock_row,
  member_text,
  or_dash,
  status_text,
  stuck_rows,
  txn_row,
  txn_rows,
  wait_row,
  waiter_row,
  wanted_text,
};
ghost use Rattle.gl_interpreter.specs.SoFar.{IsShown};
ghost use Rattle.gl_interpreter.specs.Views.{script_of};

use crate::answers::{put_called, put_no_node, put_no_txn, put_number};
use crate::desk::Desk;
use crate::sink::{Sink, put};
use gl_modes::{Mode, NodeId, Refusal};
use gl_script::{Listing, Name, Used};
use gl_slots::Slots;
use gl_table::{LockRow, Status, Stuck, TxnId};
use std::io::Write;

/// The line above the rows.
const OK: &[u8] = b"ok\n";

/// Prints a listing.
pub(crate) fn put_listing<W: Write>(sink: &mut Sink, writer: &mut W, desk: &Desk, listing: &Listing)
    ensures { IsShown (W.contents writer.old) sink.old (script_of desk.now) (listing_of listing.now) (W.contents writer.new) sink.new }
{
    match listing {
        Listing::Holders { node } => put_holders(sink, writer, desk, node),
        Listing::Queue { node } => put_queue(sink, writer, desk, node),
        Listing::Locks { txn } => put_locks(sink, writer, desk, txn),
        Listing::Waits { txn } => put_waits(sink, writer, desk, txn),
        Listing::Txns => {
            put(sink, writer, OK);
            put_txns(sink, writer, desk);
        }
        Listing::Cycle => {
            put(sink, writer, OK);
            put_deadlock(sink, writer, desk);
        }
    }
}

/// Prints the holders of a node, by rising slot.
fn put_holders<W: Write>(sink: &mut Sink, writer: &mut W, desk: &Desk, node: &Used)
    ensures { IsShown (W.contents writer.old) sink.old (script_of desk.now) (listing.Holders (node_of node.now)) (W.contents writer.new) sink.new }
{
    let id = desk.node_id(node);
    match desk.manager.holders(id) {
        Ok(slots) => {
            put(sink, writer, OK);
            put_each_holder(sink, writer, desk, id, slots);
        }
        Err(refusal) => put_no_node(sink, writer, desk, node, refusal),
    }
}

/// Prints a line for each of these slots, with the mode in which it holds a node.
fn put_each_holder<W: Write>(
    sink: &mut Sink,
    writer: &mut W,
    desk: &Desk,
    node: NodeId,
    slots: Slots,
)
    ensures { Hands (W.contents writer.old) sink.old (W.contents writer.new) sink.new (flat_map (holder_row (script_of desk.now) node) (slots_of slots)) }
{
    for slot in slots.iter() {
        put_holder(sink, writer, desk, node, slot);
    }
}

/// Prints the line of a holder.
fn put_holder<W: Write>(sink: &mut Sink, writer: &mut W, desk: &Desk, node: NodeId, slot: u8)
    ensures { Hands (W.contents writer.old) sink.old (W.contents writer.new) sink.new (holder_row (script_of desk.now) node slot) }
{
    put(sink, writer, b"holder ");
    put(sink, writer, desk.name_at(slot));
    put(sink, writer, b" ");
    put(
        sink,
        writer,
        desk.manager.mode_at(slot, node).text().as_bytes(),
    );
    put(sink, writer, b"\n");
}

/// Prints the queue of a node, in its order.
fn put_queue<W: Write>(sink: &mut Sink, writer: &mut W, desk: &Desk, node: &Used)
    ensures { IsShown (W.contents writer.old) sink.old (script_of desk.now) (listing.Queue (node_of node.now)) (W.contents writer.new) sink.new }
{
    match desk.manager.queue(desk.node_id(node)) {
        Ok(queue) => {
            put(sink, writer, OK);
            put_each_waiter(sink, writer, desk, queue);
        }
        Err(refusal) => put_no_node(sink, writer, desk, node, refusal),
    }
}

/// Prints a line for each of these waiters.
fn put_each_waiter<W: Write>(sink: &mut Sink, writer: &mut W, desk: &Desk, queue: &[(u8, Mode)])
    ensures { Hands (W.contents writer.old) sink.old (W.contents writer.new) sink.new (flat_map (waiter_row (script_of desk.now)) queue.now) }
{
    for (slot, wanted) in queue {
        put_waiter(sink, writer, desk, *slot, *wanted);
    }
}

/// Prints the line of a waiter.
fn put_waiter<W: Write>(sink: &mut Sink, writer: &mut W, desk: &Desk, slot: u8, wanted: Mode)
    ensures { Hands (W.contents writer.old) sink.old (W.contents writer.new) sink.new (waiter_row (script_of desk.now) (slot, wanted)) }
{
    put(sink, writer, b"waiter ");
    put(sink, writer, desk.name_at(slot));
    put(sink, writer, b" ");
    put(sink, writer, wanted.text().as_bytes());
    put(sink, writer, b"\n");
}

/// Prints the transactions for which a transaction waits, by rising slot.
fn put_waits<W: Write>(sink: &mut Sink, writer: &mut W, desk: &Desk, name: &Name)
    ensures { IsShown (W.contents writer.old) sink.old (script_of desk.now) (listing.Waits name.now.items) (W.contents writer.new) sink.new }
{
    match desk.manager.waits_for(desk.txn_id(name)) {
        Ok(slots) => {
            put(sink, writer, OK);
            put_each_blocker(sink, writer, desk, slots);
        }
        Err(refusal) => put_no_txn(sink, writer, name, refusal),
    }
}

/// Prints a line for each of these slots.
fn put_each_blocker<W: Write>(sink: &mut Sink, writer: &mut W, desk: &Desk, slots: Slots)
    ensures { Hands (W.contents writer.old) sink.old (W.contents writer.new) sink.new (flat_map (blocker_row (script_of desk.now)) (slots_of slots)) }
{
    for slot in slots.iter() {
        put_blocker(sink, writer, desk, slot);
    }
}

/// Prints the line of a transaction that is waited for.
fn put_blocker<W: Write>(sink: &mut Sink, writer: &mut W, desk: &Desk, slot: u8)
    ensures { Hands (W.contents writer.old) sink.old (W.contents writer.new) sink.new (blocker_row (script_of desk.now) slot) }
{
    put(sink, writer, b"blocker ");
    put(sink, writer, desk.name_at(slot));
    put(sink, writer, b"\n");
}

/// Prints the living transactions, by rising slot.
fn put_txns<W: Write>(sink: &mut Sink, writer: &mut W, desk: &Desk)
    ensures { Hands (W.contents writer.old) sink.old (W.contents writer.new) sink.new (txn_rows (script_of desk.now)) }
{
    desk.manager.law(); // No slot is past 127.
    for slot in 0..desk.manager.most() {
        put_living(sink, writer, desk, slot as u8);
    }
}

/// Prints the line of the transaction in a slot, if there is one.
fn put_living<W: Write>(sink: &mut Sink, writer: &mut W, desk: &Desk, slot: u8)
    ensures { Hands (W.contents writer.old) sink.old (W.contents writer.new) sink.new
        (txn_row (script_of desk.now) (living_in (script_of desk.now).locks slot)) }
{
    if let Some((txn, status)) = desk.manager.living(slot) {
        put_txn(sink, writer, desk, txn, status);
    }
}

/// Prints the line of a transaction.
fn put_txn<W: Write>(sink: &mut Sink, writer: &mut W, desk: &Desk, txn: TxnId, status: Status)
    ensures { Hands (W.contents writer.old) sink.old (W.contents writer.new) sink.new (txn_row (script_of desk.now) (Some (txn, status))) }
{
    put(sink, writer, b"txn ");
    put(sink, writer, desk.txn_name(txn));
    put(sink, writer, b" ");
    put_number(sink, writer, txn.age);
    put_status(sink, writer, desk, status);
    put(sink, writer, b"\n");
}

/// Prints what a transaction is doing.
fn put_status<W: Write>(sink: &mut Sink, writer: &mut W, desk: &Desk, status: Status)
    ensures { Hands (W.contents writer.old) sink.old (W.contents writer.new) sink.new (status_text (script_of desk.now) status) }
{
    match status {
        Status::Active => put(sink, writer, b" active"),
        Status::Waiting { node, wanted } => {
            put(sink, writer, b" waits ");
            put(sink, writer, wanted.text().as_bytes());
            put_called(sink, writer, desk, node);
        }
        Status::Condemned => put(sink, writer, b" condemned"),
    }
}

/// Prints the nodes that a transaction holds or waits for.
fn put_locks<W: Write>(sink: &mut Sink, writer: &mut W, desk: &Desk, name: &Name)
    ensures { IsShown (W.contents writer.old) sink.old (script_of desk.now) (listing.Locks name.now.items) (W.contents writer.new) sink.new }
{
    let txn = desk.txn_id(name);
    desk.manager.law(); // Its list has its locks.
    match desk.manager.lock_count(txn) {
        Some(count) => {
            put(sink, writer, OK);
            put_each_lock(sink, writer, desk, txn, count);
        }
        None => put_no_txn(sink, writer, name, Refusal::NoSuchTxn),
    }
}

/// Prints the rows of a living transaction.
fn put_each_lock<W: Write>(sink: &mut Sink, writer: &mut W, desk: &Desk, txn: TxnId, count: usize)
    requires lives { lives (script_of desk.now).locks txn ≡ true }
    requires all { count ≡ length (rows_of desk.now.manager.table txn.slot) }
    ensures { Hands (W.contents writer.old) sink.old (W.contents writer.new) sink.new
        (flat_map (lock_row (script_of desk.now) (wait_of (status_of (script_of desk.now).locks txn.slot))) (rows_of desk.now.manager.table txn.slot)) }
{
    let wait = desk.manager.waiting(txn);
    for place in 0..count {
        if let Some(row) = desk.manager.lock_at(txn, place) {
            put_lock(sink, writer, desk, wait, row);
        }
    }
}

/// Prints the line of a row.
fn put_lock<W: Write>(
    sink: &mut Sink,
    writer: &mut W,
    desk: &Desk,
    wait: Option<(NodeId, Mode)>,
    row: LockRow,
)
    ensures { Hands (W.contents writer.old) sink.old (W.contents writer.new) sink.new (lock_row (script_of desk.now) wait row) }
{
    put(sink, writer, b"lock ");
    put(sink, writer, row.mode.text().as_bytes());
    put_called(sink, writer, desk, row.node);
    put(sink, writer, b" children ");
    put_number(sink, writer, row.children as u64);
    put_wanted(sink, writer, wait, row.node);
    put(sink, writer, b"\n");
}

/// Prints the wanted mode, if the transaction waits for this node.
fn put_wanted<W: Write>(sink: &mut Sink, writer: &mut W, wait: Option<(NodeId, Mode)>, node: NodeId)
    ensures { Hands (W.contents writer.old) sink.old (W.contents writer.new) sink.new (wanted_text wait node) }
{
    match wait {
        Some((at, wanted)) => {
            if at == node {
                put(sink, writer, b" waits ");
                put(sink, writer, wanted.text().as_bytes());
            }
        }
        None => {}
    }
}

/// Prints the deadlock of the last victim, if there was one.
fn put_deadlock<W: Write>(sink: &mut Sink, writer: &mut W, desk: &Desk)
    ensures { Hands (W.contents writer.old) sink.old (W.contents writer.new) sink.new
        (deadlock_rows (script_of desk.now) (script_of desk.now).deadlock.victim (script_of desk.now).deadlock.cycle.items) }
{
    if let Some(deadlock) = desk.manager.last_deadlock() {
        put(sink, writer, b"victim");
        put_member(sink, writer, desk, deadlock.victim);
        put(sink, writer, b"\n");
        put_each_stuck(sink, writer, desk, deadlock.cycle.as_slice());
    }
}

/// Prints for each transaction of a deadlock those of it for which it waited.
fn put_each_stuck<W: Write>(sink: &mut Sink, writer: &mut W, desk: &Desk, all: &[Stuck])
    ensures { Hands (W.contents writer.old) sink.old (W.contents writer.new) sink.new (flat_map (stuck_rows (script_of desk.now) all.now) all.now) }
{
    for stuck in all {
        put_stuck(sink, writer, desk, *stuck, all);
    }
}

/// Prints a line for each transaction of a deadlock for which this one waited.
fn put_stuck<W: Write>(sink: &mut Sink, writer: &mut W, desk: &Desk, stuck: Stuck, all: &[Stuck])
    ensures { Hands (W.contents writer.old) sink.old (W.contents writer.new) sink.new (stuck_rows (script_of desk.now) all.now stuck) }
{
    for other in all {
        put_stuck_for(sink, writer, desk, stuck, *other);
    }
}

/// Prints that one waited for the other, if it did.
fn put_stuck_for<W: Write>(sink: &mut Sink, writer: &mut W, desk: &Desk, stuck: Stuck, other: Stuck)
    ensures { Hands (W.contents writer.old) sink.old (W.contents writer.new) sink.new (wait_row (script_of desk.now) stuck other) }
{
    if stuck.waits_for.contains(other.txn.slot) {
        put(sink, writer, b"stuck");
        put_member(sink, writer, desk, stuck.txn);
        put(sink, writer, b" waits ");
        put(sink, writer, stuck.wanted.text().as_bytes());
        put_kept_node(sink, writer, desk, stuck.node);
        put(sink, writer, b" for");
        put_member(sink, writer, desk, other.txn);
        put(sink, writer, b"\n");
    }
}

/// Prints a space, and the name and age of a transaction, which may have ended.
fn put_member<W: Write>(sink: &mut Sink, writer: &mut W, desk: &Desk, txn: TxnId)
    ensures { Hands (W.contents writer.old) sink.old (W.contents writer.new) sink.new (member_text (script_of desk.now) txn) }
{
    put(sink, writer, b" ");
    put(sink, writer, or_dash(desk.txn_name(txn)));
    put(sink, writer, b" ");
    put_number(sink, writer, txn.age);
}

/// Prints a space and a node, which may be gone.
fn put_kept_node<W: Write>(sink: &mut Sink, writer: &mut W, desk: &Desk, node: NodeId)
    ensures { Hands (W.contents writer.old) sink.old (W.contents writer.new) sink.new (kept_node (script_of desk.now) node) }
{
    match desk.place(node) {
        None => {
            put(sink, writer, b" ");
            put(sink, writer, or_dash(desk.node_name(node)));
        }
        Some(_) => put_called(sink, writer, desk, node),
    }
}

/// A name, or a dash if it is no longer in use.
fn or_dash(name: &[u8]) -> &[u8]
    ensures { result.now ≡ or_dash name.now }
{
    if name.is_empty() { b"-" } else { name }
}
