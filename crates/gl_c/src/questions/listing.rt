//! Replies to the questions of a listing.

ghost use Rattle.std.specs.Prelude.{◌≡◌, ℕ, List, Result, Ok, Err, MatchResult, length};
ghost use Rattle.std.specs.List.{slice_get};
ghost use Rattle.gl_modes.specs.declared.refusal.Refusal.TheVariants as no;
ghost use Rattle.gl_model.specs.Deadlocks.{name_at};
ghost use Rattle.gl_catalog.specs.Manager.{state_of};
ghost use Rattle.gl_c.specs.questions.Listings.{doing, lived, row_reply, waiter_reply, wanted_on};
ghost use Rattle.gl_c.specs.questions.Looks.{counted};
ghost use Rattle.gl_c.specs.answers.Replies.{count_reply, refused_reply};

use crate::answers::reply::Reply;
use crate::names::{Node, Txn};
use crate::numbers::{DONE, NO_PLACE, mode_number};
use gl_catalog::Manager;
use gl_modes::{Mode, NodeId, Refusal};
use gl_slots::Slot;
use gl_table::{LockRow, Status, TxnId};

/// The transaction in a slot.
pub(crate) fn living_reply(living: Option<(TxnId, Status)>) -> Reply
    ensures { result ≡ lived living }
{
    match living {
        Some((txn, _)) => Reply {
            txn: Txn::of(txn),
            ..Reply::with_status(DONE)
        },
        None => Reply::with_status(NO_PLACE),
    }
}

/// What a transaction is doing.
pub(crate) fn doing_reply(status: Option<Status>) -> Reply
    ensures { result ≡ doing status }
{
    match status {
        Some(Status::Active) => Reply::with_count(1),
        Some(Status::Waiting { node, wanted }) => Reply {
            node: Node::of(node),
            mode: mode_number(wanted),
            ..Reply::with_count(2)
        },
        Some(Status::Condemned) => Reply::with_count(3),
        None => Reply::refused(Refusal::NoSuchTxn),
    }
}

/// How many nodes a transaction holds or waits for.
pub(crate) fn lock_count_reply(count: Option<usize>) -> Reply
    ensures { result ≡ counted (refused_reply no.NoSuchTxn) count }
{
    match count {
        Some(count) => Reply::with_count(count as u64),
        None => Reply::refused(Refusal::NoSuchTxn),
    }
}

/// A node that a transaction with this wait holds or waits for.
pub(crate) fn row_reply(wait: Option<(NodeId, Mode)>, row: Option<LockRow>) -> Reply
    ensures { result ≡ row_reply wait row }
{
    match row {
        Some(row) => Reply {
            node: Node::of(row.node),
            mode: mode_number(row.mode),
            wanted: mode_number(wanted_on(wait, row.node)),
            ..Reply::with_count(u64::from(row.children))
        },
        None => Reply::with_status(NO_PLACE),
    }
}

/// The wanted mode, if this is the node that the transaction waits for; otherwise NL.
fn wanted_on(wait: Option<(NodeId, Mode)>, node: NodeId) -> Mode
    ensures { result ≡ wanted_on wait node }
{
    match wait {
        Some((at, wanted)) if at.key == node.key && at.birth == node.birth => wanted,
        _ => Mode::NL,
    }
}

/// How many transactions wait for a node.
pub(crate) fn queue_len_reply(queue: Result<&[(Slot, Mode)], Refusal>) -> Reply
    ensures { MatchResult queue.entry (λ waiters. result ≡ count_reply (length waiters.now)) (λ refusal. result ≡ refused_reply refusal) }
{
    match queue {
        Ok(waiters) => Reply::with_count(waiters.len() as u64),
        Err(refusal) => Reply::refused(refusal),
    }
}

/// A transaction that waits for a node, by its place in the queue.
pub(crate) fn queue_at_reply(
    manager: &Manager,
    queue: Result<&[(Slot, Mode)], Refusal>,
    place: usize,
) -> Reply
    ensures { MatchResult queue.entry (λ waiters. result ≡ waiter_reply (state_of manager.now) (slice_get waiters.now place))
        (λ refusal. result ≡ refused_reply refusal) }
{
    match queue {
        Ok(waiters) => waiter_reply(manager, waiters.get(place).copied()),
        Err(refusal) => Reply::refused(refusal),
    }
}

fn waiter_reply(manager: &Manager, waiter: Option<(Slot, Mode)>) -> Reply
    ensures { result ≡ waiter_reply (state_of manager.now) waiter }
{
    match waiter {
        Some((slot, wanted)) => Reply {
            txn: Txn::of(name_at(manager, slot)),
            mode: mode_number(wanted),
            ..Reply::with_status(DONE)
        },
        None => Reply::with_status(NO_PLACE),
    }
}

/// The transaction in a slot, with age 0 if the slot is free.
fn name_at(manager: &Manager, slot: Slot) -> TxnId
    ensures { result ≡ name_at (state_of manager.now) slot }
{
    match manager.living(slot) {
        Some((txn, _)) => txn,
        None => TxnId { slot, age: 0 },
    }
}
