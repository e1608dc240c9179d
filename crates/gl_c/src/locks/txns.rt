//! Transactions and their locks. A call with `told` overwrites it with its notices. Rows that a
//! transaction requested by number and that nobody holds any more lose their nodes when it ends or
//! releases locks.

ghost use Rattle.std.specs.Prelude.{[]};
ghost use Rattle.gl_steps.specs.declared.command.Command.TheVariants as command;
ghost use Rattle.gl_c.specs.managers.Carries.{Asks, Carries, Declines, Where, command_call};
ghost use Rattle.gl_c.specs.managers.Handle.{guarded_in};
ghost use Rattle.gl_c.specs.Names.{node_id, txn_id};
ghost use Rattle.gl_c.specs.answers.Notices.{Tells};
ghost use Rattle.gl_c.specs.Numbers.{bad_number, mode_at};
ghost use Rattle.gl_c.specs.locks.Paths.{path_call};
ghost use Rattle.gl_c.specs.locks.Savepoints.{back_call, keeping_call};

use crate::answers::notices::Notices;
use crate::answers::reply::Reply;
use crate::managers::handle::Handle;
use crate::names::{Node, Txn};
use crate::numbers::{BAD_NUMBER, mode_at};
use gl_catalog::Command;

/// Begins a transaction.
#[unsafe(no_mangle)]
pub extern "C" fn bs_call_begin(manager: &mut Handle) -> Reply
    ensures { Asks (guarded_in manager.old) (command_call command.Begin) result (guarded_in manager.new) }
{
    manager.ask(Command::Begin)
}

/// Begins a transaction for work that an earlier one did not finish; `since` is the age of the first of
/// them.
#[unsafe(no_mangle)]
pub extern "C" fn bs_call_begin_again(manager: &mut Handle, since: u64) -> Reply
    ensures { Asks (guarded_in manager.old) (command_call (command.BeginAgain since)) result (guarded_in manager.new) }
{
    manager.ask(Command::BeginAgain { since })
}

/// Begins a transaction in the slot of this number, for work that began in another manager: its `since`
/// is this number, also if it is above the next age.
#[unsafe(no_mangle)]
pub extern "C" fn bs_call_join(manager: &mut Handle, slot: u32, since: u64) -> Reply
    ensures { Asks (guarded_in manager.old) (command_call (command.Join slot since)) result (guarded_in manager.new) }
{
    let slot = slot as usize;
    manager.ask(Command::Join { slot, since })
}

/// Ends a transaction that holds intentions alone, on nodes for which nobody waits, and begins anew in
/// its slot with all its locks; `since` is as for `bs_call_begin_again`.
#[unsafe(no_mangle)]
pub extern "C" fn bs_call_renew(manager: &mut Handle, txn: Txn, since: u64) -> Reply
    ensures { Asks (guarded_in manager.old) (command_call (command.Renew (txn_id txn) since)) result (guarded_in manager.new) }
{
    let txn = txn.id();
    manager.ask(Command::Renew { txn, since })
}

/// Requests a mode on a node, and waits if it cannot be granted at once.
#[unsafe(no_mangle)]
pub extern "C" fn bs_call_lock(
    manager: &mut Handle,
    txn: Txn,
    node: Node,
    mode: u32,
    told: &mut Notices,
) -> Reply
    ensures { Where (mode_at mode) (λ wanted. Carries (guarded_in manager.old) (command_call (command.Lock (txn_id txn) (node_id node) wanted)) result told.new
        (guarded_in manager.new)) (Declines (guarded_in manager.old) bad_number result (guarded_in manager.new) × Tells told.new []) }
{
    let Some(mode) = mode_at(mode) else {
        told.clear();
        return Reply::with_status(BAD_NUMBER);
    };
    let command = Command::Lock {
        txn: txn.id(),
        node: node.id(),
        mode,
    };
    manager.carry_out(command, told)
}

/// Locks a node after what must be held above it.
#[unsafe(no_mangle)]
pub extern "C" fn bs_call_lock_path(
    manager: &mut Handle,
    txn: Txn,
    node: Node,
    mode: u32,
    told: &mut Notices,
) -> Reply
    ensures { Where (mode_at mode) (λ wanted. Carries (guarded_in manager.old) (path_call (txn_id txn) (node_id node, wanted)) result told.new
        (guarded_in manager.new)) (Declines (guarded_in manager.old) bad_number result (guarded_in manager.new) × Tells told.new []) }
{
    let Some(mode) = mode_at(mode) else {
        told.clear();
        return Reply::with_status(BAD_NUMBER);
    };
    manager.lock_path(txn.id(), node.id(), mode, told)
}

/// Requests a mode on a node; a lock that cannot be granted at once is refused.
#[unsafe(no_mangle)]
pub extern "C" fn bs_call_try(manager: &mut Handle, txn: Txn, node: Node, mode: u32) -> Reply
    ensures { Where (mode_at mode) (λ wanted. Asks (guarded_in manager.old) (command_call (command.Try (txn_id txn) (node_id node) wanted)) result
        (guarded_in manager.new)) (Declines (guarded_in manager.old) bad_number result (guarded_in manager.new)) }
{
    let Some(mode) = mode_at(mode) else {
        return Reply::with_status(BAD_NUMBER);
    };
    manager.ask(Command::Try {
        txn: txn.id(),
        node: node.id(),
        mode,
    })
}

/// Releases a node if the transaction holds no child of it.
#[unsafe(no_mangle)]
pub extern "C" fn bs_call_unlock(
    manager: &mut Handle,
    txn: Txn,
    node: Node,
    told: &mut Notices,
) -> Reply
    ensures { Carries (guarded_in manager.old) (command_call (command.Unlock (txn_id txn) (node_id node))) result told.new (guarded_in manager.new) }
{
    let command = Command::Unlock {
        txn: txn.id(),
        node: node.id(),
    };
    manager.carry_out(command, told)
}

/// Rolls back to a savepoint: releases what was locked since the transaction had this many locks.
#[unsafe(no_mangle)]
pub extern "C" fn bs_call_release_since(
    manager: &mut Handle,
    txn: Txn,
    mark: usize,
    told: &mut Notices,
) -> Reply
    ensures { Carries (guarded_in manager.old) (back_call (txn_id txn) mark) result told.new (guarded_in manager.new) }
{
    manager.release_since(txn.id(), mark, told)
}

/// Commits a transaction and begins another in its slot that keeps its first `keep` locks, if what it
/// keeps are intentions alone, on nodes for which nobody waits; otherwise it keeps none, and no
/// transaction begins. `since` is as for `bs_call_begin_again`. The reply has the transaction that
/// began.
#[unsafe(no_mangle)]
pub extern "C" fn bs_call_commit_keeping(
    manager: &mut Handle,
    txn: Txn,
    keep: usize,
    since: u64,
    told: &mut Notices,
) -> Reply
    ensures { Carries (guarded_in manager.old) (keeping_call (txn_id txn) keep since) result told.new (guarded_in manager.new) }
{
    manager.commit_keeping(txn.id(), keep, since, told)
}

/// Ends a transaction and releases everything.
#[unsafe(no_mangle)]
pub extern "C" fn bs_call_commit(manager: &mut Handle, txn: Txn, told: &mut Notices) -> Reply
    ensures { Carries (guarded_in manager.old) (command_call (command.Commit (txn_id txn))) result told.new (guarded_in manager.new) }
{
    manager.carry_out(Command::Commit { txn: txn.id() }, told)
}

/// Ends a transaction whatever it is doing, and releases everything.
#[unsafe(no_mangle)]
pub extern "C" fn bs_call_abort(manager: &mut Handle, txn: Txn, told: &mut Notices) -> Reply
    ensures { Carries (guarded_in manager.old) (command_call (command.Abort (txn_id txn))) result told.new (guarded_in manager.new) }
{
    manager.carry_out(Command::Abort { txn: txn.id() }, told)
}

/// Cancels the wait of a transaction.
#[unsafe(no_mangle)]
pub extern "C" fn bs_call_cancel(manager: &mut Handle, txn: Txn, told: &mut Notices) -> Reply
    ensures { Carries (guarded_in manager.old) (command_call (command.Cancel (txn_id txn))) result told.new (guarded_in manager.new) }
{
    manager.carry_out(Command::Cancel { txn: txn.id() }, told)
}

/// Raises the lock of a node, and releases the children whose locks that implies.
#[unsafe(no_mangle)]
pub extern "C" fn bs_call_escalate(
    manager: &mut Handle,
    txn: Txn,
    node: Node,
    told: &mut Notices,
) -> Reply
    ensures { Carries (guarded_in manager.old) (command_call (command.Escalate (txn_id txn) (node_id node))) result told.new (guarded_in manager.new) }
{
    let command = Command::Escalate {
        txn: txn.id(),
        node: node.id(),
    };
    manager.carry_out(command, told)
}

/// Condemns victims, by the choice of victims, until the transaction is on no cycle of waits.
#[unsafe(no_mangle)]
pub extern "C" fn bs_call_settle(manager: &mut Handle, txn: Txn, told: &mut Notices) -> Reply
    ensures { Carries (guarded_in manager.old) (command_call (command.Settle (txn_id txn))) result told.new (guarded_in manager.new) }
{
    manager.carry_out(Command::Settle { txn: txn.id() }, told)
}
