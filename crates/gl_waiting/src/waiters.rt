//! How a waiter goes on whose wait is over.

ghost use Rattle.std.specs.Prelude.{◌≡◌, [], true};
ghost use Rattle.gl_catalog.specs.Manager.{state_of};
ghost use Rattle.gl_modes.specs.declared.mode.Mode.{Mode as AMode};
ghost use Rattle.gl_modes.specs.declared.node.NodeId.{NodeId as ANode};
ghost use Rattle.gl_steps.specs.Promises.{waits_on};
ghost use Rattle.gl_waiting.specs.Ends.{CallWith, Continues, Unlocks};
ghost use Rattle.gl_waiting.specs.RowLocks.{again_as, granted_row, row_came_as, row_came_of};
ghost use Rattle.gl_waiting.specs.Waiters.{came_of, holds_or_ends, waits_as};
ghost use Rattle.gl_waiting.specs.declared.waiter.Came.TheVariants.{Waits as waits};

use crate::delivery::Delivery;
use crate::tries::intention;
use crate::waiter::{Came, Next, Outcome, Waiter};
use gl_catalog::{Command, Manager, Reached};
use gl_modes::{Mode, NodeId, Refusal};
use gl_rows::{RowLocked, RowRefusal};
use gl_slots::Slots;
use gl_table::{Locked, Told, TxnId};

/// Continues a waiter by what comes next, with the notices put into an empty list. Answers what its request came to, and
/// the slots whose wait that may have ended.
pub(crate) fn continue_by(
    delivery: &mut Delivery,
    waiter: &Waiter,
    next: Next,
    told: &mut Told,
) -> (Came, Slots)
    requires empty { told.old.items ≡ [] }
    ensures continues { Continues waiter.now next delivery.old result.0 told.new.items delivery.new }
    ensures call { CallWith waiter.now.txn told.new.items result.1 delivery.old delivery.new }
    ensures waits { (at : ANode) (wanted : AMode) → result.0 ≡ waits at wanted → waits_on (state_of delivery.new.manager) waiter.now.txn at ≡ true }
{
    match next {
        Next::End(outcome) => (Came::Ended(outcome), Slots::empty()),
        Next::GiveBack(outcome) => {
            let ended = unlock(delivery, waiter.txn, waiter.request.node(), told);
            (Came::Ended(outcome), ended)
        }
        Next::GoOn { node, mode } => {
            let (reached, ended) = delivery.lock_path(waiter.txn, node, mode, told);
            let came = came_of(
                delivery.manager(),
                waiter.txn,
                waiter.request.node(),
                waiter.instant,
                reached,
            );
            (came, ended)
        }
        Next::LockRow { row, keys, mode } => {
            let (outcome, ended) = delivery.lock_row(waiter.txn, row, keys.as_slice(), mode, told);
            let came = row_came_of(delivery.manager(), waiter.txn, mode, outcome);
            (came, ended)
        }
        Next::LockAgain {
            row,
            keys,
            mode,
            granted,
        } => {
            let (locked, ended) = delivery.lock_row(waiter.txn, row, keys.as_slice(), mode, told);
            (Came::Ended(again_as(waiter.at, granted, locked)), ended)
        }
    }
}

/// Unlocks a node, with the notices put into an empty list. Answers the slots whose wait that may have ended.
fn unlock(delivery: &mut Delivery, txn: TxnId, node: NodeId, told: &mut Told) -> Slots
    requires empty { told.old.items ≡ [] }
    ensures unlocks { Unlocks txn node told.new.items delivery.old delivery.new }
    ensures call { CallWith txn told.new.items result delivery.old delivery.new }
{
    let (_answer, ended) = delivery.serve(Command::Unlock { txn, node }, told);
    ended
}

/// What a request for this node with what must be held above it came to, whose last lock came to this.
fn came_of(
    manager: &Manager,
    txn: TxnId,
    node: NodeId,
    instant: bool,
    reached: Result<Reached, Refusal>,
) -> Came
    ensures { result ≡ came_of (state_of manager.now) txn node instant reached }
{
    match reached {
        Ok(Reached { node: at, locked }) => match locked {
            Locked::Granted(mode) => holds_or_ends(at == node && !instant, at, mode),
            Locked::Victim => Came::Ended(Outcome::Victim(at)),
            Locked::Waiting => wait_of(manager, txn),
        },
        Err(refusal) => Came::Ended(Outcome::Refused(refusal)),
    }
}

/// What a path came to that was granted this node: its end, if the node is its own and its lock is to stay.
fn holds_or_ends(is_end: bool, at: NodeId, mode: Mode) -> Came
    ensures { result ≡ holds_or_ends is_end at mode }
{
    if is_end {
        Came::Ended(Outcome::Granted(mode))
    } else {
        Came::Holds { at, mode }
    }
}

/// What a row with what must be held above it came to, whose lock came to this: a node that it lacks above is requested
/// next.
fn row_came_of(
    manager: &Manager,
    txn: TxnId,
    mode: Mode,
    locked: Result<RowLocked, RowRefusal>,
) -> Came
    ensures { result ≡ row_came_of (state_of manager.now) txn mode locked }
{
    match locked {
        Ok(row) => row_came_as(manager, txn, row),
        Err(RowRefusal::Refused(Refusal::NeedParents { node })) => Came::Lacks {
            at: node,
            wanted: intention(mode),
        },
        Err(RowRefusal::Refused(refusal)) => Came::Ended(Outcome::Refused(refusal)),
        Err(RowRefusal::NotRows) => Came::Ended(Outcome::NotRows),
    }
}

/// The same of a row that was not refused.
fn row_came_as(manager: &Manager, txn: TxnId, row: RowLocked) -> Came
    ensures { result ≡ row_came_as (state_of manager.now) txn row.node row.own_keys row.locked }
{
    match row.locked {
        Locked::Granted(mode) => Came::Ended(granted_row(row.node, mode, row.own_keys)),
        Locked::Victim => Came::Ended(Outcome::Victim(row.node)),
        Locked::Waiting => wait_of(manager, txn),
    }
}

/// How a request for a row ends that was granted by this node in this mode, if the node has the keys of the request, or
/// others.
fn granted_row(node: NodeId, mode: Mode, own_keys: bool) -> Outcome
    ensures { result ≡ granted_row node mode own_keys }
{
    if own_keys {
        Outcome::RowGranted { node, mode }
    } else {
        Outcome::OtherKeys { node, mode }
    }
}

/// For what a transaction waits.
fn wait_of(manager: &Manager, txn: TxnId) -> Came
    ensures { result ≡ waits_as (state_of manager.now) txn }
{
    match manager.waiting(txn) {
        Some((at, wanted)) => Came::Waits { at, wanted },
        None => Came::Ended(Outcome::Refused(Refusal::NotWaiting)),
    }
}

/// How a wait for a row ends that was granted at this node in this mode, by the lock that was requested again: only that
/// tells whether the row has the keys of the request.
fn again_as(at: NodeId, granted: Mode, locked: Result<RowLocked, RowRefusal>) -> Outcome
    ensures { result ≡ again_as at granted locked }
{
    match locked {
        Ok(
            RowLocked {
                node,
                locked: Locked::Granted(mode),
                own_keys: true,
            },
        ) => Outcome::RowGranted { node, mode },
        _ => Outcome::OtherKeys {
            node: at,
            mode: granted,
        },
    }
}
